//! The logs of a board's seats, and the rule of its table. All of it exists only in proofs: no value of these types is ever made.
use atomic_table::{Join, Play, Split, TableRule};
use std::collections::LinkedList;

/// What a seat did: the height that a writer published for its replica; or the (replica, height) pairs that a reader
/// read, and those of the writers that were handed back to it.
pub struct Log {
    pub makes: bool,
    pub writes: bool,
    pub replica: u8,
    pub height: u32,
    pub seen: LinkedList<(u8, u32)>,
    pub closed: LinkedList<(u8, u32)>,
}

/// The rule of the table, for a given number of replicas.
pub struct Rising;

impl TableRule<(), Log, u8> for Rising {
    ghost use Rattle.commit_board.specs.BoardRule.{KeepsBoard, maker_log};

    ghost holds = { KeepsBoard };

    ghost first = { λ _. maker_log 0 };
}

/// The step that makes a writer's seat.
pub struct NextWriter;

impl Split<Log> for NextWriter {
    ghost use Rattle.commit_board.specs.BoardRule.{with_writer, next_writer};

    ghost left = { with_writer };

    ghost right = { next_writer };
}

/// The step that makes a reader's seat.
pub struct NextReader;

impl Split<Log> for NextReader {
    ghost use Rattle.commit_board.specs.BoardRule.{next_reader};

    ghost left = { λ v. v };

    ghost right = { next_reader };
}

/// The step that hands a writer's seat back to a reader.
pub struct HandedBack;

impl Join<Log> for HandedBack {
    ghost use Rattle.commit_board.specs.BoardRule.{with_closed, nobody};

    ghost both = { with_closed };

    ghost spent = { nobody };
}

/// A reader's load.
pub struct ByReading;

impl Play<(), Log> for ByReading {
    ghost use Rattle.commit_board.specs.BoardRule.{Found};

    ghost then = { Found };
}

/// A writer's load.
pub struct ByOwning;

impl Play<(), Log> for ByOwning {
    ghost use Rattle.commit_board.specs.BoardRule.{Owned};

    ghost then = { Owned };
}

/// A writer's raise.
pub struct ByRaising;

impl Play<(), Log> for ByRaising {
    ghost use Rattle.commit_board.specs.BoardRule.{Raised};

    ghost then = { Raised };
}
