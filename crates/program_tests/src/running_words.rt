//! The settings that the words of `abft cluster` and `abft serve` give. `tests/end_to_end.sh` tests the faults of words
//! that give none.
use crate::setting_lines::is_set_by;

#[test]
fn the_words_of_cluster_and_serve_set_each_option(rt: HostRuntime) {
    for &(words, line) in &[
        (
            "abft cluster",
            "4 1 KvStore W4 32 One 0 [97, 61, 49] 40 200 Info false None",
        ),
        (
            "abft cluster --n 7 --t=2 --kind 2 --w 8 --tree 10 --frames 2 --seed 0000000000000000000000000000000000000000000000000000000000000011 \
             --tx \\00 --rounds 4000000000 --base-ms 60000 --quiet",
            "7 2 Counter W8 1024 Two 17 [0] 4000000000 60000 Off false None",
        ),
        (
            "abft cluster --histories=f",
            "4 1 KvStore W4 32 One 0 [97, 61, 49] 40 200 Info false Some(\"f\")",
        ),
        (
            "abft cluster --log debug",
            "4 1 KvStore W4 32 One 0 [97, 61, 49] 40 200 Debug false None",
        ),
        (
            "abft cluster --log debug --quiet",
            "4 1 KvStore W4 32 One 0 [97, 61, 49] 40 200 Off false None",
        ),
        (
            "abft cluster --no-empty-blocks --stop-at-eof",
            "4 1 KvStore W4 32 One 0 [97, 61, 49] 40 200 Info true sparing None",
        ),
        (
            "abft cluster --steady",
            "4 1 KvStore W4 32 One 0 [97, 61, 49] 40 200 Info false steady None",
        ),
        (
            "abft serve --no-empty-blocks",
            "4 1 KvStore W4 32 One 0 [97, 61, 49] 40 200 Info false sparing None, 0 None 1 32768",
        ),
        (
            "abft cluster --kind kv",
            "error: --kind is 1, 2, 3, kvstore, counter or purse, not 'kv'",
        ),
        (
            "abft serve",
            "4 1 KvStore W4 32 One 0 [97, 61, 49] 40 200 Info false None, 0 None 1 32768",
        ),
        (
            "abft serve --n 13 --tx b=2 --rounds 0 --base-ms 1 --log WARN --stop-at-eof --histories new.bin --port 65535 --http=80 --sessions 1000 --client-entries 65536",
            "13 1 KvStore W4 32 One 0 [98, 61, 50] 0 1 Warn true Some(\"new.bin\"), 65535 Some(80) 1000 65536",
        ),
    ] {
        assert!(rt; is_set_by(rt.alloc(), words, line), "{line}");
    }
}
