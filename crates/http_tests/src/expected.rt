//! The replies that the tests expect: made of JSON values, base64 and SHA-256 by Python, with the lengths of the bodies.

pub(crate) const HEALTH: &str = "\
    HTTP/1.1 200 OK\r\n\
    Content-Type: application/json\r\n\
    Content-Length: 37\r\n\
    Connection: close\r\n\
    \r\n\
    {\"jsonrpc\":\"2.0\",\"id\":-1,\"result\":{}}";

pub(crate) const STATUS: &str = "\
    HTTP/1.1 200 OK\r\n\
    Content-Type: application/json\r\n\
    Content-Length: 183\r\n\
    Connection: close\r\n\
    \r\n\
    {\"jsonrpc\":\"2.0\",\"id\":-1,\"result\":{\"node_info\":{\"network\":\"abft\",\"moniker\":\"replica 2\"},\
    \"sync_info\":{\"latest_block_height\":\"12\",\"catching_up\":false},\"abft\":{\"replica\":2,\"round\":345}}}";

pub(crate) const INFO: &str = "\
    HTTP/1.1 200 OK\r\n\
    Content-Type: application/json\r\n\
    Content-Length: 160\r\n\
    Connection: close\r\n\
    \r\n\
    {\"jsonrpc\":\"2.0\",\"id\":-1,\"result\":{\"response\":{\"data\":\"kvstore\",\"last_block_height\":\"12\",\
    \"last_block_app_hash\":\"AAAAAAAAAAAAAAAAAAAAAAAAAAAAAAAAAAAAAAAAAAA=\"}}}";

pub(crate) const FOUND: &str = "\
    HTTP/1.1 200 OK\r\n\
    Content-Type: application/json\r\n\
    Content-Length: 176\r\n\
    Connection: close\r\n\
    \r\n\
    {\"jsonrpc\":\"2.0\",\"id\":-1,\"result\":{\"response\":{\"code\":0,\"log\":\"exists\",\"info\":\"\",\
    \"index\":\"0\",\"key\":\"YWJjZA==\",\"value\":\"YWJjZA==\",\"proofOps\":null,\"height\":\"12\",\"codespace\":\"\"}}}";

pub(crate) const MISSING: &str = "\
    HTTP/1.1 200 OK\r\n\
    Content-Type: application/json\r\n\
    Content-Length: 173\r\n\
    Connection: close\r\n\
    \r\n\
    {\"jsonrpc\":\"2.0\",\"id\":-1,\"result\":{\"response\":{\"code\":0,\"log\":\"does not exist\",\"info\":\"\",\
    \"index\":\"0\",\"key\":\"Iv8=\",\"value\":null,\"proofOps\":null,\"height\":\"0\",\"codespace\":\"\"}}}";

pub(crate) const EMPTY_BLOCK: &str = "\
    HTTP/1.1 200 OK\r\n\
    Content-Type: application/json\r\n\
    Content-Length: 141\r\n\
    Connection: close\r\n\
    \r\n\
    {\"jsonrpc\":\"2.0\",\"id\":-1,\"result\":{\"block_id\":{\"hash\":\"\",\"parts\":{\"total\":0,\"hash\":\"\"}},\
    \"block\":{\"header\":{\"height\":\"1\"},\"data\":{\"txs\":[]}}}}";

pub(crate) const BLOCK: &str = "\
    HTTP/1.1 200 OK\r\n\
    Content-Type: application/json\r\n\
    Content-Length: 169\r\n\
    Connection: close\r\n\
    \r\n\
    {\"jsonrpc\":\"2.0\",\"id\":-1,\"result\":{\"block_id\":{\"hash\":\"\",\"parts\":{\"total\":0,\"hash\":\"\"}},\
    \"block\":{\"header\":{\"height\":\"4096\"},\"data\":{\"txs\":[\"YT0x\",\"bmFtZT1zYXRvc2hp\"]}}}}";

pub(crate) const UNCONFIRMED: &str = "\
    HTTP/1.1 200 OK\r\n\
    Content-Type: application/json\r\n\
    Content-Length: 95\r\n\
    Connection: close\r\n\
    \r\n\
    {\"jsonrpc\":\"2.0\",\"id\":-1,\"result\":{\"n_txs\":\"31\",\"total\":\"31\",\"total_bytes\":\"19974\",\
    \"txs\":null}}";

pub(crate) const SYNC: &str = "\
    HTTP/1.1 200 OK\r\n\
    Content-Type: application/json\r\n\
    Content-Length: 185\r\n\
    Connection: close\r\n\
    \r\n\
    {\"jsonrpc\":\"2.0\",\"id\":-1,\"result\":{\"code\":0,\"data\":\"\",\"log\":\"\",\
    \"codespace\":\"\",\"hash\":\"57D835FBBA0DBF922D8A2EDA56922C9B24E7760927F245A7684A736C4769DB8A\",\
    \"abft\":{\"replica\":3,\"index\":44}}}";

pub(crate) const REJECTED: &str = "\
    HTTP/1.1 200 OK\r\n\
    Content-Type: application/json\r\n\
    Content-Length: 153\r\n\
    Connection: close\r\n\
    \r\n\
    {\"jsonrpc\":\"2.0\",\"id\":-1,\"result\":{\"code\":7,\"data\":\"\",\"log\":\"\",\
    \"codespace\":\"\",\"hash\":\"57D835FBBA0DBF922D8A2EDA56922C9B24E7760927F245A7684A736C4769DB8A\"}}";

pub(crate) const COMMIT: &str = "\
    HTTP/1.1 200 OK\r\n\
    Content-Type: application/json\r\n\
    Content-Length: 381\r\n\
    Connection: close\r\n\
    \r\n\
    {\"jsonrpc\":\"2.0\",\"id\":-1,\"result\":{\"check_tx\":{\"code\":0,\"data\":null,\"log\":\"\",\"info\":\"\",\
    \"gas_wanted\":\"0\",\"gas_used\":\"0\",\"events\":[],\"codespace\":\"\"},\"deliver_tx\":{\"code\":1,\
    \"data\":null,\"log\":\"\",\"info\":\"\",\"gas_wanted\":\"0\",\"gas_used\":\"0\",\"events\":[],\"codespace\":\"\"},\
    \"hash\":\"57D835FBBA0DBF922D8A2EDA56922C9B24E7760927F245A7684A736C4769DB8A\",\"height\":\"5\",\"abft\":{\"replica\":0,\
    \"index\":39}}}";

pub(crate) const REJECTED_COMMIT: &str = "\
    HTTP/1.1 200 OK\r\n\
    Content-Type: application/json\r\n\
    Content-Length: 349\r\n\
    Connection: close\r\n\
    \r\n\
    {\"jsonrpc\":\"2.0\",\"id\":-1,\"result\":{\"check_tx\":{\"code\":7,\"data\":null,\"log\":\"\",\"info\":\"\",\
    \"gas_wanted\":\"0\",\"gas_used\":\"0\",\"events\":[],\"codespace\":\"\"},\"deliver_tx\":{\"code\":0,\
    \"data\":null,\"log\":\"\",\"info\":\"\",\"gas_wanted\":\"0\",\"gas_used\":\"0\",\"events\":[],\"codespace\":\"\"},\
    \"hash\":\"57D835FBBA0DBF922D8A2EDA56922C9B24E7760927F245A7684A736C4769DB8A\",\"height\":\"0\"}}";

pub(crate) const MALFORMED: &str = "\
    HTTP/1.1 400 Bad Request\r\n\
    Content-Type: application/json\r\n\
    Content-Length: 114\r\n\
    Connection: close\r\n\
    \r\n\
    {\"jsonrpc\":\"2.0\",\"id\":-1,\"error\":{\"code\":-32600,\"message\":\"Invalid Request\",\
    \"data\":\"this is no HTTP/1.x request\"}}";

pub(crate) const WRONG: &str = "\
    HTTP/1.1 400 Bad Request\r\n\
    Content-Type: application/json\r\n\
    Content-Length: 124\r\n\
    Connection: close\r\n\
    \r\n\
    {\"jsonrpc\":\"2.0\",\"id\":-1,\"error\":{\"code\":-32602,\
    \"message\":\"Invalid params\",\"data\":\"the parameter data is missing or wrong\"}}";

pub(crate) const NOT_FOUND: &str = "\
    HTTP/1.1 404 Not Found\r\n\
    Content-Type: application/json\r\n\
    Content-Length: 100\r\n\
    Connection: close\r\n\
    \r\n\
    {\"jsonrpc\":\"2.0\",\"id\":-1,\"error\":{\"code\":-32601,\"message\":\"Method not found\",\"data\":\"no such path\"}}";

pub(crate) const METHOD: &str = "\
    HTTP/1.1 405 Method Not Allowed\r\n\
    Content-Type: application/json\r\n\
    Content-Length: 112\r\n\
    Allow: GET\r\n\
    Connection: close\r\n\
    \r\n\
    {\"jsonrpc\":\"2.0\",\"id\":-1,\"error\":{\"code\":-32600,\"message\":\"Invalid Request\",\
    \"data\":\"only GET is answered here\"}}";

pub(crate) const INCOMPLETE: &str = "\
    HTTP/1.1 400 Bad Request\r\n\
    Content-Type: application/json\r\n\
    Content-Length: 119\r\n\
    Connection: close\r\n\
    \r\n\
    {\"jsonrpc\":\"2.0\",\"id\":-1,\"error\":{\"code\":-32600,\"message\":\"Invalid Request\",\
    \"data\":\"the request ends within its head\"}}";

pub(crate) const TOO_LONG: &str = "\
    HTTP/1.1 431 Request Header Fields Too Large\r\n\
    Content-Type: application/json\r\n\
    Content-Length: 122\r\n\
    Connection: close\r\n\
    \r\n\
    {\"jsonrpc\":\"2.0\",\"id\":-1,\"error\":{\"code\":-32600,\"message\":\"Invalid Request\",\
    \"data\":\"the head of the request is too long\"}}";

pub(crate) const NO_MEMORY: &str = "\
    HTTP/1.1 500 Internal Server Error\r\n\
    Content-Type: application/json\r\n\
    Content-Length: 99\r\n\
    Connection: close\r\n\
    \r\n\
    {\"jsonrpc\":\"2.0\",\"id\":-1,\"error\":{\"code\":-32603,\"message\":\"Internal error\",\"data\":\"out of memory\"}}";

pub(crate) const NO_REPLICA: &str = "\
    HTTP/1.1 400 Bad Request\r\n\
    Content-Type: application/json\r\n\
    Content-Length: 117\r\n\
    Connection: close\r\n\
    \r\n\
    {\"jsonrpc\":\"2.0\",\"id\":-1,\"error\":{\"code\":-32602,\"message\":\"Invalid params\",\
    \"data\":\"the cluster has no such replica\"}}";

pub(crate) const NOT_COMMITTED: &str = "\
    HTTP/1.1 500 Internal Server Error\r\n\
    Content-Type: application/json\r\n\
    Content-Length: 127\r\n\
    Connection: close\r\n\
    \r\n\
    {\"jsonrpc\":\"2.0\",\"id\":-1,\"error\":{\"code\":-32603,\"message\":\"Internal error\",\
    \"data\":\"the replica has not committed this height\"}}";

pub(crate) const NOT_LAST_HEIGHT: &str = "\
    HTTP/1.1 400 Bad Request\r\n\
    Content-Type: application/json\r\n\
    Content-Length: 136\r\n\
    Connection: close\r\n\
    \r\n\
    {\"jsonrpc\":\"2.0\",\"id\":-1,\"error\":{\"code\":-32602,\"message\":\"Invalid params\",\
    \"data\":\"the application answers as of its last block alone\"}}";

pub(crate) const STOPPING: &str = "\
    HTTP/1.1 503 Service Unavailable\r\n\
    Content-Type: application/json\r\n\
    Content-Length: 115\r\n\
    Connection: close\r\n\
    \r\n\
    {\"jsonrpc\":\"2.0\",\"id\":-1,\"error\":{\"code\":-32603,\"message\":\"Internal error\",\
    \"data\":\"the cluster was asked to stop\"}}";

pub(crate) const STRANGER: &str = "\
    HTTP/1.1 500 Internal Server Error\r\n\
    Content-Type: application/json\r\n\
    Content-Length: 126\r\n\
    Connection: close\r\n\
    \r\n\
    {\"jsonrpc\":\"2.0\",\"id\":-1,\"error\":{\"code\":-32603,\"message\":\"Internal error\",\
    \"data\":\"the state of this replica is not its own\"}}";

pub(crate) const HISTORY_FULL: &str = "\
    HTTP/1.1 503 Service Unavailable\r\n\
    Content-Type: application/json\r\n\
    Content-Length: 139\r\n\
    Connection: close\r\n\
    \r\n\
    {\"jsonrpc\":\"2.0\",\"id\":-1,\"error\":{\"code\":-32603,\"message\":\"Internal error\",\
    \"data\":\"the replica's history has no entries left for clients\"}}";

pub(crate) const TIMED_OUT: &str = "\
    HTTP/1.1 500 Internal Server Error\r\n\
    Content-Type: application/json\r\n\
    Content-Length: 136\r\n\
    Connection: close\r\n\
    \r\n\
    {\"jsonrpc\":\"2.0\",\"id\":-1,\"error\":{\"code\":-32603,\"message\":\"Internal error\",\
    \"data\":\"timed out waiting for tx to be included in a block\"}}";

pub(crate) const EMPTY: &str = "\
    HTTP/1.1 400 Bad Request\r\n\
    Content-Type: application/json\r\n\
    Content-Length: 113\r\n\
    Connection: close\r\n\
    \r\n\
    {\"jsonrpc\":\"2.0\",\"id\":-1,\"error\":{\"code\":-32602,\"message\":\"Invalid params\",\
    \"data\":\"the transaction has no byte\"}}";

pub(crate) const LONG: &str = "\
    HTTP/1.1 400 Bad Request\r\n\
    Content-Type: application/json\r\n\
    Content-Length: 124\r\n\
    Connection: close\r\n\
    \r\n\
    {\"jsonrpc\":\"2.0\",\"id\":-1,\"error\":{\"code\":-32602,\"message\":\"Invalid params\",\
    \"data\":\"the transaction has more than 64 bytes\"}}";

pub(crate) const DUPLICATE: &str = "\
    HTTP/1.1 500 Internal Server Error\r\n\
    Content-Type: application/json\r\n\
    Content-Length: 112\r\n\
    Connection: close\r\n\
    \r\n\
    {\"jsonrpc\":\"2.0\",\"id\":-1,\"error\":{\"code\":-32603,\"message\":\"Internal error\",\
    \"data\":\"tx already exists in cache\"}}";

pub(crate) const FULL: &str = "\
    HTTP/1.1 500 Internal Server Error\r\n\
    Content-Type: application/json\r\n\
    Content-Length: 101\r\n\
    Connection: close\r\n\
    \r\n\
    {\"jsonrpc\":\"2.0\",\"id\":-1,\"error\":{\"code\":-32603,\"message\":\"Internal error\",\"data\":\"mempool is full\"}}";

pub(crate) const METRICS: &str = "\
    HTTP/1.1 200 OK\r\n\
    Content-Type: text/plain; version=0.0.4; charset=utf-8\r\n\
    Content-Length: 2678\r\n\
    Connection: close\r\n\
    \r\n\
    # HELP abft_rounds The open round of the replica.\n\
    # TYPE abft_rounds gauge\n\
    abft_rounds{replica=\"0\"} 17\n\
    abft_rounds{replica=\"3\"} 4000000000\n\
    # HELP abft_height The last height that the replica committed.\n\
    # TYPE abft_height gauge\n\
    abft_height{replica=\"0\"} 4\n\
    abft_height{replica=\"3\"} 0\n\
    # HELP abft_signatures_left One-time signatures that its key pair has left.\n\
    # TYPE abft_signatures_left gauge\n\
    abft_signatures_left{replica=\"0\"} 1001\n\
    abft_signatures_left{replica=\"3\"} 0\n\
    # HELP abft_pool_transactions Transactions that wait for a block.\n\
    # TYPE abft_pool_transactions gauge\n\
    abft_pool_transactions{replica=\"0\"} 5\n\
    abft_pool_transactions{replica=\"3\"} 18446744073709551615\n\
    # HELP abft_history_entries Entries of the history.\n\
    # TYPE abft_history_entries gauge\n\
    abft_history_entries{replica=\"0\"} 333\n\
    abft_history_entries{replica=\"3\"} 0\n\
    # HELP abft_frames_lost_total Frames that a full inbox lost.\n\
    # TYPE abft_frames_lost_total counter\n\
    abft_frames_lost_total{replica=\"0\"} 9\n\
    abft_frames_lost_total{replica=\"3\"} 18446744073709551615\n\
    # HELP abft_frames_accepted_total Frames that the replica accepted.\n\
    # TYPE abft_frames_accepted_total counter\n\
    abft_frames_accepted_total{replica=\"0\"} 180\n\
    abft_frames_accepted_total{replica=\"3\"} 18446744073709551615\n\
    # HELP abft_frames_ignored_total Frames that the replica ignored, by the first cause that fits.\n\
    # TYPE abft_frames_ignored_total counter\n\
    abft_frames_ignored_total{replica=\"0\",cause=\"Malformed\"} 1\n\
    abft_frames_ignored_total{replica=\"0\",cause=\"Signer\"} 20\n\
    abft_frames_ignored_total{replica=\"0\",cause=\"NoRow\"} 3\n\
    abft_frames_ignored_total{replica=\"0\",cause=\"WrongRound\"} 40\n\
    abft_frames_ignored_total{replica=\"0\",cause=\"WrongPhase\"} 5\n\
    abft_frames_ignored_total{replica=\"0\",cause=\"NotOwner\"} 60\n\
    abft_frames_ignored_total{replica=\"0\",cause=\"Repeated\"} 7\n\
    abft_frames_ignored_total{replica=\"0\",cause=\"BadSignature\"} 80\n\
    abft_frames_ignored_total{replica=\"0\",cause=\"BadProof\"} 9\n\
    abft_frames_ignored_total{replica=\"0\",cause=\"TableFull\"} 100\n\
    abft_frames_ignored_total{replica=\"0\",cause=\"NotMine\"} 18446744073709551615\n\
    abft_frames_ignored_total{replica=\"3\",cause=\"Malformed\"} 0\n\
    abft_frames_ignored_total{replica=\"3\",cause=\"Signer\"} 0\n\
    abft_frames_ignored_total{replica=\"3\",cause=\"NoRow\"} 0\n\
    abft_frames_ignored_total{replica=\"3\",cause=\"WrongRound\"} 0\n\
    abft_frames_ignored_total{replica=\"3\",cause=\"WrongPhase\"} 0\n\
    abft_frames_ignored_total{replica=\"3\",cause=\"NotOwner\"} 0\n\
    abft_frames_ignored_total{replica=\"3\",cause=\"Repeated\"} 0\n\
    abft_frames_ignored_total{replica=\"3\",cause=\"BadSignature\"} 0\n\
    abft_frames_ignored_total{replica=\"3\",cause=\"BadProof\"} 0\n\
    abft_frames_ignored_total{replica=\"3\",cause=\"TableFull\"} 0\n\
    abft_frames_ignored_total{replica=\"3\",cause=\"NotMine\"} 0\n\
    ";

pub(crate) const ALL_METRICS: &str = "\
    HTTP/1.1 200 OK\r\n\
    Content-Type: text/plain; version=0.0.4; charset=utf-8\r\n\
    Content-Length: 4395\r\n\
    Connection: close\r\n\
    \r\n\
    # HELP abft_rounds The open round of the replica.\n\
    # TYPE abft_rounds gauge\n\
    abft_rounds{replica=\"0\"} 345\n\
    abft_rounds{replica=\"1\"} 345\n\
    abft_rounds{replica=\"2\"} 345\n\
    abft_rounds{replica=\"3\"} 345\n\
    # HELP abft_height The last height that the replica committed.\n\
    # TYPE abft_height gauge\n\
    abft_height{replica=\"0\"} 12\n\
    abft_height{replica=\"1\"} 12\n\
    abft_height{replica=\"2\"} 12\n\
    abft_height{replica=\"3\"} 12\n\
    # HELP abft_signatures_left One-time signatures that its key pair has left.\n\
    # TYPE abft_signatures_left gauge\n\
    abft_signatures_left{replica=\"0\"} 1001\n\
    abft_signatures_left{replica=\"1\"} 1001\n\
    abft_signatures_left{replica=\"2\"} 1001\n\
    abft_signatures_left{replica=\"3\"} 1001\n\
    # HELP abft_pool_transactions Transactions that wait for a block.\n\
    # TYPE abft_pool_transactions gauge\n\
    abft_pool_transactions{replica=\"0\"} 5\n\
    abft_pool_transactions{replica=\"1\"} 5\n\
    abft_pool_transactions{replica=\"2\"} 5\n\
    abft_pool_transactions{replica=\"3\"} 5\n\
    # HELP abft_history_entries Entries of the history.\n\
    # TYPE abft_history_entries gauge\n\
    abft_history_entries{replica=\"0\"} 333\n\
    abft_history_entries{replica=\"1\"} 333\n\
    abft_history_entries{replica=\"2\"} 333\n\
    abft_history_entries{replica=\"3\"} 333\n\
    # HELP abft_frames_lost_total Frames that a full inbox lost.\n\
    # TYPE abft_frames_lost_total counter\n\
    abft_frames_lost_total{replica=\"0\"} 2\n\
    abft_frames_lost_total{replica=\"1\"} 2\n\
    abft_frames_lost_total{replica=\"2\"} 2\n\
    abft_frames_lost_total{replica=\"3\"} 2\n\
    # HELP abft_frames_accepted_total Frames that the replica accepted.\n\
    # TYPE abft_frames_accepted_total counter\n\
    abft_frames_accepted_total{replica=\"0\"} 271\n\
    abft_frames_accepted_total{replica=\"1\"} 271\n\
    abft_frames_accepted_total{replica=\"2\"} 271\n\
    abft_frames_accepted_total{replica=\"3\"} 271\n\
    # HELP abft_frames_ignored_total Frames that the replica ignored, by the first cause that fits.\n\
    # TYPE abft_frames_ignored_total counter\n\
    abft_frames_ignored_total{replica=\"0\",cause=\"Malformed\"} 0\n\
    abft_frames_ignored_total{replica=\"0\",cause=\"Signer\"} 0\n\
    abft_frames_ignored_total{replica=\"0\",cause=\"NoRow\"} 3\n\
    abft_frames_ignored_total{replica=\"0\",cause=\"WrongRound\"} 0\n\
    abft_frames_ignored_total{replica=\"0\",cause=\"WrongPhase\"} 0\n\
    abft_frames_ignored_total{replica=\"0\",cause=\"NotOwner\"} 0\n\
    abft_frames_ignored_total{replica=\"0\",cause=\"Repeated\"} 17\n\
    abft_frames_ignored_total{replica=\"0\",cause=\"BadSignature\"} 0\n\
    abft_frames_ignored_total{replica=\"0\",cause=\"BadProof\"} 0\n\
    abft_frames_ignored_total{replica=\"0\",cause=\"TableFull\"} 0\n\
    abft_frames_ignored_total{replica=\"0\",cause=\"NotMine\"} 1\n\
    abft_frames_ignored_total{replica=\"1\",cause=\"Malformed\"} 0\n\
    abft_frames_ignored_total{replica=\"1\",cause=\"Signer\"} 0\n\
    abft_frames_ignored_total{replica=\"1\",cause=\"NoRow\"} 3\n\
    abft_frames_ignored_total{replica=\"1\",cause=\"WrongRound\"} 0\n\
    abft_frames_ignored_total{replica=\"1\",cause=\"WrongPhase\"} 0\n\
    abft_frames_ignored_total{replica=\"1\",cause=\"NotOwner\"} 0\n\
    abft_frames_ignored_total{replica=\"1\",cause=\"Repeated\"} 17\n\
    abft_frames_ignored_total{replica=\"1\",cause=\"BadSignature\"} 0\n\
    abft_frames_ignored_total{replica=\"1\",cause=\"BadProof\"} 0\n\
    abft_frames_ignored_total{replica=\"1\",cause=\"TableFull\"} 0\n\
    abft_frames_ignored_total{replica=\"1\",cause=\"NotMine\"} 1\n\
    abft_frames_ignored_total{replica=\"2\",cause=\"Malformed\"} 0\n\
    abft_frames_ignored_total{replica=\"2\",cause=\"Signer\"} 0\n\
    abft_frames_ignored_total{replica=\"2\",cause=\"NoRow\"} 3\n\
    abft_frames_ignored_total{replica=\"2\",cause=\"WrongRound\"} 0\n\
    abft_frames_ignored_total{replica=\"2\",cause=\"WrongPhase\"} 0\n\
    abft_frames_ignored_total{replica=\"2\",cause=\"NotOwner\"} 0\n\
    abft_frames_ignored_total{replica=\"2\",cause=\"Repeated\"} 17\n\
    abft_frames_ignored_total{replica=\"2\",cause=\"BadSignature\"} 0\n\
    abft_frames_ignored_total{replica=\"2\",cause=\"BadProof\"} 0\n\
    abft_frames_ignored_total{replica=\"2\",cause=\"TableFull\"} 0\n\
    abft_frames_ignored_total{replica=\"2\",cause=\"NotMine\"} 1\n\
    abft_frames_ignored_total{replica=\"3\",cause=\"Malformed\"} 0\n\
    abft_frames_ignored_total{replica=\"3\",cause=\"Signer\"} 0\n\
    abft_frames_ignored_total{replica=\"3\",cause=\"NoRow\"} 3\n\
    abft_frames_ignored_total{replica=\"3\",cause=\"WrongRound\"} 0\n\
    abft_frames_ignored_total{replica=\"3\",cause=\"WrongPhase\"} 0\n\
    abft_frames_ignored_total{replica=\"3\",cause=\"NotOwner\"} 0\n\
    abft_frames_ignored_total{replica=\"3\",cause=\"Repeated\"} 17\n\
    abft_frames_ignored_total{replica=\"3\",cause=\"BadSignature\"} 0\n\
    abft_frames_ignored_total{replica=\"3\",cause=\"BadProof\"} 0\n\
    abft_frames_ignored_total{replica=\"3\",cause=\"TableFull\"} 0\n\
    abft_frames_ignored_total{replica=\"3\",cause=\"NotMine\"} 1\n\
    ";

/// The head of the metrics of replica 2; its lines stand in `ALL_METRICS`.
pub(crate) const METRICS_OF_2_HEAD: &str = "\
    HTTP/1.1 200 OK\r\n\
    Content-Type: text/plain; version=0.0.4; charset=utf-8\r\n\
    Content-Length: 1704\r\n\
    Connection: close\r\n\
    \r\n";
