//! What the head of a request asks, and each fault.

use http_messages::{Question, Request, RequestFault, parse};
use ledger_model::Height;
use plain_text::Escaped;
use std::alloc::{AllocError, Global};

// A height of a question: its number, or `-`.
fn height_text(alloc: Global, height: Option<Height>) -> Result<String, AllocError> {
    match height {
        Some(height) => format!(in alloc; "{}", height.number()),
        None => format!(in alloc; "-"),
    }
}

// A word, and bytes in the printed form of transactions.
fn bytes_text(alloc: Global, word: &str, bytes: &[u8]) -> Result<String, AllocError> {
    let bytes = Escaped(bytes);
    format!(in alloc; "{word} {bytes}")
}

fn query_text(alloc: Global, key: &[u8], height: Option<Height>) -> Result<String, AllocError> {
    let words = bytes_text(alloc, "query", key)?;
    let height = height_text(alloc, height)?;
    format!(in alloc; "{words} at {height}")
}

fn block_text(alloc: Global, height: Option<Height>) -> Result<String, AllocError> {
    let height = height_text(alloc, height)?;
    format!(in alloc; "block {height}")
}

fn question_text(alloc: Global, question: &Question) -> Result<String, AllocError> {
    match question {
        Question::Page => format!(in alloc; "page"),
        Question::Health => format!(in alloc; "health"),
        Question::Status => format!(in alloc; "status"),
        Question::AbciInfo => format!(in alloc; "info"),
        Question::AbciQuery { key, height } => query_text(alloc, key, *height),
        Question::Block { height } => block_text(alloc, *height),
        Question::UnconfirmedTxs => format!(in alloc; "unconfirmed"),
        Question::BroadcastSync { tx } => bytes_text(alloc, "sync", tx),
        Question::BroadcastCommit { tx } => bytes_text(alloc, "commit", tx),
        Question::Metrics => format!(in alloc; "metrics"),
    }
}

fn request_text(alloc: Global, request: &Request) -> Result<String, AllocError> {
    let question = question_text(alloc, &request.question)?;
    match request.replica {
        Some(replica) => format!(in alloc; "{question} of {}", replica.number()),
        None => Ok(question),
    }
}

fn fault_text(alloc: Global, fault: RequestFault) -> Result<String, AllocError> {
    let status = fault.status();
    format!(in alloc; "{status} {fault}")
}

// What the head is answered, in words.
fn answer_text(alloc: Global, head: &[u8]) -> Result<String, AllocError> {
    match parse(alloc, head) {
        Ok(request) => request_text(alloc, &request),
        Err(fault) => fault_text(alloc, fault),
    }
}

// Whether the head is answered so.
fn is_answered(alloc: Global, head: &[u8], answer: &str) -> bool {
    match answer_text(alloc, head) {
        Ok(text) => text.as_str() == answer,
        Err(_) => false,
    }
}

// Whether a GET of the target, as curl sends it, is answered so.
fn is_got(alloc: Global, target: &str, answer: &str) -> bool {
    let head = format!(in alloc;
        "GET {target} HTTP/1.1\r\nHost: localhost:26657\r\nUser-Agent: curl/7.88.1\r\nAccept: */*\r\n\r\n"
    );
    match head {
        Ok(head) => is_answered(alloc, head.as_bytes(), answer),
        Err(_) => false,
    }
}

#[test]
fn each_path_is_asked(rt: HostRuntime) {
    for &(target, answer) in &[
        ("/", "page"),
        ("/health", "health"),
        ("/status", "status"),
        ("/status?replica=2", "status of 2"),
        ("/abci_info?", "info"),
        ("/num_unconfirmed_txs?limit=1", "unconfirmed"),
        ("/metrics?replica=255", "metrics of 255"),
        ("/block", "block -"),
        ("/block?height=1", "block 1"),
        ("/block?height=%221%22&replica=0", "block 1 of 0"),
        ("/block?height=4294967295", "block 4294967295"),
        ("/block?height=1&height=x", "block 1"),
        ("/abci_query?data=\"name\"", "query name at -"),
        (
            "/abci_query?data=\"abcd\"&height=\"007\"&prove=false",
            "query abcd at 7",
        ),
        (
            "/abci_query?path=%22/a%22&data=0x6E616d65&height=0",
            "query name at 0",
        ),
    ] {
        assert!(rt; is_got(rt.alloc(), target, answer), "{target}");
    }
}

#[test]
fn each_form_of_a_transaction_is_read(rt: HostRuntime) {
    for &(target, answer) in &[
        // The lines of CometBFT's tutorial on its key-value store.
        ("/broadcast_tx_commit?tx=\"abcd\"", "commit abcd"),
        (
            "/broadcast_tx_commit?tx=\"name=satoshi\"",
            "commit name=satoshi",
        ),
        (
            "/broadcast_tx_sync?tx=%22name%3Dsatoshi%22",
            "sync name=satoshi",
        ),
        ("/broadcast_tx_sync?tx=\"a+b%2B\"", "sync a\\20b+"),
        ("/broadcast_tx_sync?tx=\"\"", "sync "),
        ("/broadcast_tx_sync?tx=\"100%\"", "sync 100%"),
        ("/broadcast_tx_sync?tx=0x", "sync "),
        ("/broadcast_tx_sync?tx=0X61", "sync a"),
        ("/broadcast_tx_sync?tx=0x00fFA0", "sync \\00\\ff\\a0"),
        ("/broadcast_tx_sync?&replica=3&tx=\"a\"&tx=b", "sync a of 3"),
    ] {
        assert!(rt; is_got(rt.alloc(), target, answer), "{target}");
    }
}

#[test]
fn each_fault_of_a_target_is_found(rt: HostRuntime) {
    for &(target, answer) in &[
        ("/favicon.ico", "404 no such path"),
        ("/Status", "404 no such path"),
        ("/status/", "404 no such path"),
        ("http://localhost/status", "404 no such path"),
        (
            "/broadcast_tx_commit",
            "400 the parameter tx is missing or wrong",
        ),
        (
            "/broadcast_tx_sync?tx=abcd",
            "400 the parameter tx is missing or wrong",
        ),
        (
            "/broadcast_tx_sync?tx=\"abcd",
            "400 the parameter tx is missing or wrong",
        ),
        (
            "/broadcast_tx_sync?tx=\"",
            "400 the parameter tx is missing or wrong",
        ),
        (
            "/broadcast_tx_sync?tx=\"a\\\"b\"",
            "400 the parameter tx is missing or wrong",
        ),
        (
            "/broadcast_tx_sync?tx=0x123",
            "400 the parameter tx is missing or wrong",
        ),
        (
            "/broadcast_tx_sync?tx=0xgg",
            "400 the parameter tx is missing or wrong",
        ),
        (
            "/abci_query?height=1",
            "400 the parameter data is missing or wrong",
        ),
        (
            "/abci_query?data=\"a\"&height=-1",
            "400 the parameter height is missing or wrong",
        ),
        (
            "/block?height=",
            "400 the parameter height is missing or wrong",
        ),
        (
            "/block?height=4294967296",
            "400 the parameter height is missing or wrong",
        ),
        (
            "/block?height=0x1",
            "400 the parameter height is missing or wrong",
        ),
        (
            "/status?replica=256",
            "400 the parameter replica is missing or wrong",
        ),
    ] {
        assert!(rt; is_got(rt.alloc(), target, answer), "{target}");
    }
}

#[test]
fn each_fault_of_a_head_is_found(rt: HostRuntime) {
    for &(head, answer) in &[
        ("GET /status HTTP/1.0\r\n\r\n", "status"),
        ("\r\nGET /status HTTP/1.1\nhost:x\n\nmore", "status"),
        (
            "POST /status HTTP/1.1\r\n\r\n",
            "405 only GET is answered here",
        ),
        (
            "HEAD /block?height=x HTTP/1.1\r\n\r\n",
            "405 only GET is answered here",
        ),
        (
            "get /status HTTP/1.1\r\n\r\n",
            "405 only GET is answered here",
        ),
        ("POST /other HTTP/1.1\r\n\r\n", "404 no such path"),
        ("", "400 the request ends within its head"),
        (
            "GET /status HTTP/1.1\r\n",
            "400 the request ends within its head",
        ),
        ("GET /sta", "400 the request ends within its head"),
        ("GET /status\r\n\r\n", "400 this is no HTTP/1.x request"),
        (
            "GET /status HTTP/2.0\r\n\r\n",
            "400 this is no HTTP/1.x request",
        ),
        (
            "GET /broadcast_tx_sync?tx=\"a b\" HTTP/1.1\r\n\r\n",
            "400 this is no HTTP/1.x request",
        ),
        (
            "GET /status HTTP/1.1\r\nno field\r\n\r\n",
            "400 this is no HTTP/1.x request",
        ),
    ] {
        assert!(rt; is_answered(rt.alloc(), head.as_bytes(), answer), "{head}");
    }
}

// A head with that many copies of a field line.
fn head_of(alloc: Global, line: &str, count: usize) -> Result<Vec<u8>, AllocError> {
    let mut head = b"GET /status HTTP/1.1\r\n".to_vec(alloc)?;
    for _ in 0..count {
        head.extend_from_slice(line.as_bytes())?;
    }
    head.extend_from_slice(b"\r\n")?;
    Ok(head)
}

// Whether such a head is answered so.
fn is_long_answered(alloc: Global, line: &str, count: usize, answer: &str) -> bool {
    match head_of(alloc, line, count) {
        Ok(head) => is_answered(alloc, &head, answer),
        Err(_) => false,
    }
}

#[test]
fn a_head_may_be_so_long(rt: HostRuntime) {
    let too_long = "431 the head of the request is too long";
    let field = "a: 012345678901234567890123456789012345678901234567890123456789\
        0123456789012345678901234567890123456789012345678901234567890123\r\n";
    for &(line, count, answer) in &[
        ("a:b\r\n", 64, "status"),
        ("a:b\r\n", 65, too_long),
        (field, 63, "status"),
        (field, 64, too_long),
        // The grammar isn't asked of a head with too many bytes.
        ("no field\r\n", 1000, too_long),
    ] {
        assert!(rt;
            is_long_answered(rt.alloc(), line, count, answer),
            "{count} lines"
        );
    }
}
