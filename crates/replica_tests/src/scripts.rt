//! The texts of the worked runs.
use std::alloc::{AllocError, Global};

/// The lines of a scenario text, each with the number of times that it is repeated.
pub(crate) type Script = &'static [(&'static [u8], usize)];

/// The same transaction is submitted to four replicas, and each opens height 1.
const FOUR_ALIKE: (&[u8], usize) = (
    b"config 4 1 1\nsubmit 0 a=1\nsubmit 1 a=1\nsubmit 2 a=1\nsubmit 3 a=1\npropose 0 1\npropose 1 1\npropose 2 1\npropose 3 1\n",
    1,
);

/// Each replica reports once.
pub(crate) const FIRST_ROUND: Script = &[FOUR_ALIKE, (b"round\n", 1)];

/// Each replica decides it in the phase that it owns, and runs it.
pub(crate) const PLAIN: Script = &[
    FOUR_ALIKE,
    (b"round\n", 16),
    (
        b"execute 0\nexecute 1\nexecute 2\nexecute 3\nexecute 0\nquery 0 a\nquery 1 b\n",
        1,
    ),
];

/// The same with frames of version 2.
pub(crate) const PLAIN_IN_VERSION_2: Script = &[
    (
        b"config 4 1 1\nframes 2\nsubmit 0 a=1\nsubmit 1 a=1\nsubmit 2 a=1\nsubmit 3 a=1\npropose 0 1\npropose 1 1\npropose 2 1\npropose 3 1\n",
        1,
    ),
    (b"round\n", 16),
    (b"execute 0\nexecute 1\nexecute 2\nexecute 3\n", 1),
];

/// The same as far as the first block, with another transaction.
pub(crate) const PLAIN_WITH_B: Script = &[
    (
        b"config 4 1 1\nsubmit 0 b=1\nsubmit 1 b=1\nsubmit 2 b=1\nsubmit 3 b=1\npropose 0 1\npropose 1 1\npropose 2 1\npropose 3 1\n",
        1,
    ),
    (b"round\n", 16),
    (b"execute 0\nexecute 1\nexecute 2\nexecute 3\n", 1),
];

/// The same, and then replica 0 gives height 1 up, which is refused where it has or may not; the others go on.
pub(crate) const RETIRED: Script = &[
    FOUR_ALIKE,
    (b"round\n", 16),
    (
        b"execute 0\nexecute 1\nexecute 2\nexecute 3\nretire 0 2\nretire 0 2\nretire 0 3\npropose 0 1\nend 0\nend 1\npass 1 12 0\nquery 0 a\n",
        1,
    ),
];

/// Four different proposals.
pub(crate) const FOUR_PROPOSALS: Script = &[
    (
        b"config 4 1 1\nsubmit 0 a=1\nsubmit 1 b=1\nsubmit 2 c=1\nsubmit 3 d=1\npropose 0 1\npropose 1 1\npropose 2 1\npropose 3 1\n",
        1,
    ),
    (b"round\n", 12),
    (b"execute 2\nexecute 3\n", 1),
];

/// Two proposals, each by two replicas.
pub(crate) const TWO_PROPOSALS: Script = &[
    (
        b"config 4 1 1\nsubmit 0 x=1\nsubmit 1 x=1\nsubmit 2 y=1\nsubmit 3 y=1\npropose 0 1\npropose 1 1\npropose 2 1\npropose 3 1\n",
        1,
    ),
    (b"round\n", 8),
    (b"execute 2\n", 1),
];

/// An owner that lies locks two values; a replica that reads both releases its lock.
pub(crate) const LOCK_RELEASED: Script = &[
    (
        b"config 4 1 1\nliar 1\nsubmit 0 x=1\nsubmit 2 y=1\nsubmit 3 x=1\npropose 0 1\npropose 2 1\npropose 3 1\nround\nlie-report 1 1 1 [y=1] all\n",
        1,
    ),
    (b"silent\n", 15),
    (
        b"round\nsilent\nlie-lock 1 1 5 [x=1] 0\nlie-lock 1 1 5 [y=1] 2\nsilent\n",
        1,
    ),
    (b"round\n", 5),
];

/// One acknowledgement arrives twice, and then that of a second replica, in time.
pub(crate) const LATE_ACKNOWLEDGEMENT: Script = &[
    FOUR_ALIKE,
    (
        b"round\nround\nsilent\npass 0 1 1\npass 0 1 1\npass 2 1 1\nend 1\nexecute 1\npass 3 1 1\nround\n",
        1,
    ),
];

/// A lock of the first phase arrives again in the second, and so does an acknowledgement.
pub(crate) const OTHER_PHASES: Script = &[
    FOUR_ALIKE,
    (
        b"round\nround\nsilent\nsilent\nround\nround\npass 1 1 3\npass 0 1 1\nround\nround\npass 1 1 3\npass 0 1 1\nround\n",
        1,
    ),
];

/// Replicas with nothing to do decide and run an empty block.
pub(crate) const EMPTY_BLOCKS: Script = &[
    (
        b"config 4 1 1\npropose 0 1\npropose 1 1\npropose 2 1\npropose 3 1\n",
        1,
    ),
    (b"round\n", 8),
    (b"execute 1\nexecute 2\nexecute 3\n", 1),
];

/// The counter, and a transaction whose number is not due.
pub(crate) const COUNTER: Script = &[
    (
        b"config 4 1 2\nsubmit 0 \\00\nsubmit 0 \\07\nsubmit 1 \\00\nsubmit 1 \\07\nsubmit 2 \\00\nsubmit 2 \\07\nsubmit 3 \\00\nsubmit 3 \\07\nsubmit 0 aaaaaaaaa\npropose 0 1\npropose 1 1\npropose 2 1\npropose 3 1\n",
        1,
    ),
    (b"round\n", 4),
    (
        b"execute 1\nquery 1 count\nquery 1 other\nsubmit 1 \\00\n",
        1,
    ),
];

/// The purse.
pub(crate) const PURSE: Script = &[
    (
        b"config 4 1 3\nsubmit 0 \\00\\01\\00\\00\\00\\05\\00\\00\\00\\00\nsubmit 1 \\00\\01\\00\\00\\00\\05\\00\\00\\00\\00\nsubmit 2 \\00\\01\\00\\00\\00\\05\\00\\00\\00\\00\nsubmit 3 \\00\\01\\00\\00\\00\\05\\00\\00\\00\\00\npropose 0 1\npropose 1 1\npropose 2 1\npropose 3 1\n",
        1,
    ),
    (b"round\n", 4),
    (
        b"execute 1\nquery 1 \\00\nquery 1 \\01\nquery 1 zz\nsubmit 1 \\00\\01\\00\\00\\00\\05\\00\\00\\00\\00\n",
        1,
    ),
];

/// Heights that can't be opened, and transactions that are refused.
pub(crate) const REFUSALS: Script = &[(
    b"config 4 1 1\nexecute 0\nsubmit 0\nsubmit 0 a=1\nsubmit 0 a=1\nsubmit 0 aaaaaaaaaaaaaaaaaaaaaaaaaaaaaaaaaaaaaaaaaaaaaaaaaaaaaaaaaaaaaaaaa\npropose 0 0\npropose 0 4097\npropose 0 5\npropose 0 1\npropose 0 1\ninject 0\ninject 0 00\nquery 0 a\nquery 0\nround\nround\n",
    1,
)];

/// Each replica opens four heights.
const FOUR_HEIGHTS_OPENED: (&[u8], usize) = (
    b"config 4 1 1\nsubmit 0 a=1\nsubmit 1 a=1\nsubmit 2 a=1\nsubmit 3 a=1\npropose 0 2\npropose 1 4\npropose 2 1\npropose 3 3\npropose 0 1\npropose 1 1\npropose 3 1\npropose 1 2\npropose 2 2\npropose 3 2\npropose 0 3\npropose 1 3\npropose 2 3\npropose 0 4\npropose 2 4\npropose 3 4\n",
    1,
);

/// Four heights are open at the same time, and the owner of the first phase decides all.
pub(crate) const FOUR_HEIGHTS: Script = &[
    FOUR_HEIGHTS_OPENED,
    (b"round\n", 4),
    (b"execute 1\n", 5),
    (b"propose 1 8\npropose 1 9\nround\n", 1),
];

/// One height is open, and the leaves run out after the 32nd report.
pub(crate) const NO_LEAF_LEFT: Script = &[
    (
        b"config 4 1 1\npropose 0 1\npropose 1 1\npropose 2 1\npropose 3 1\n",
        1,
    ),
    (b"silent\n", 133),
    (b"pass 1 0 0\npropose 0 2\nround\n", 1),
];

/// Four heights are open, and the leaves run out after the 8th report of each.
pub(crate) const NO_LEAVES_FOR_FOUR: Script = &[
    FOUR_HEIGHTS_OPENED,
    (b"silent\n", 32),
    (b"end 0\nround\nround\n", 1),
];

/// A counter's block of three transactions, which the last line runs.
pub(crate) const REFUSED_BLOCK: Script = &[
    (
        b"config 4 1 2\nsubmit 0 \\00\nsubmit 0 \\01\nsubmit 0 \\02\nsubmit 1 \\00\nsubmit 1 \\01\nsubmit 1 \\02\nsubmit 2 \\00\nsubmit 2 \\01\nsubmit 2 \\02\npropose 0 1\npropose 1 1\npropose 2 1\n",
        1,
    ),
    (b"round\n", 4),
    (b"execute 1\n", 1),
];

/// Twelve rounds of the plain run: the third phase ends.
pub(crate) const TWELVE_ROUNDS: Script = &[FOUR_ALIKE, (b"round\n", 12)];

/// Twenty-two rounds of the plain run: the owner of the sixth phase has made its lock.
pub(crate) const TWENTY_TWO_ROUNDS: Script = &[FOUR_ALIKE, (b"round\n", 22)];

/// Replica 1 lies, and the first phase of two heights is in its round of locks.
pub(crate) const LOCKS_DUE: Script = &[(
    b"config 4 1 1\nliar 1\nsubmit 0 a=1\nsubmit 2 a=1\nsubmit 3 a=1\npropose 0 1\npropose 2 1\npropose 3 1\npropose 0 2\npropose 2 2\npropose 3 2\nround\nround\n",
    1,
)];

/// Replica 0 has 17 transactions, proposes and reports.
const SEVENTEEN_PROPOSED: (&[u8], usize) = (
    b"submit 0 t01\nsubmit 0 t02\nsubmit 0 t03\nsubmit 0 t04\nsubmit 0 t05\nsubmit 0 t06\nsubmit 0 t07\nsubmit 0 t08\nsubmit 0 t09\nsubmit 0 t10\nsubmit 0 t11\nsubmit 0 t12\nsubmit 0 t13\nsubmit 0 t14\nsubmit 0 t15\nsubmit 0 t16\nsubmit 0 t17\npropose 0 1\nend 0\n",
    1,
);

/// Replica 0 proposes the first 16 of 17 transactions, and reports them.
pub(crate) const SEVENTEEN: Script = &[(b"config 4 1 1\n", 1), SEVENTEEN_PROPOSED];

/// With frames of version 2 it proposes and reports all of them.
pub(crate) const SEVENTEEN_IN_VERSION_2: Script = &[
    (b"config 4 1 1\nframes 2\n", 1),
    SEVENTEEN_PROPOSED,
];

/// Appends the line `count` times.
fn add_line(text: &mut Vec<u8>, line: &[u8], count: usize) -> Result<(), AllocError> {
    for _ in 0..count {
        text.extend_from_slice(line)?;
    }
    Ok(())
}

/// The text of a script.
pub(crate) fn text_of(alloc: Global, script: Script) -> Result<Vec<u8>, AllocError> {
    let mut text = Vec::new(alloc);
    for (line, count) in script {
        add_line(&mut text, line, *count)?;
    }
    Ok(text)
}
