//! Why `parse` refuses a head, and the status of the reply.
ghost use Rattle.std.specs.Prelude.{◌≡◌, Some};
ghost use Rattle.http_messages.specs.Faults.{parameter_name, request_fault_text, status_of};
ghost use Rattle.http_messages.specs.declared.fault.RequestFault.TheVariants.{NoMemory};

use std::alloc::AllocError;
use std::error::Error;
use std::fmt;

/// A parameter of a query.
#[derive(Clone, Copy, Debug, PartialEq, Eq)]
pub enum Parameter {
    Tx,
    Data,
    Height,
    Replica,
}

impl Parameter {
    /// Its name in a query.
    pub fn name(self) -> &'static str
        ensures { result.now ≡ parameter_name self }
    {
        match self {
            Parameter::Tx => "tx",
            Parameter::Data => "data",
            Parameter::Height => "height",
            Parameter::Replica => "replica",
        }
    }
}

impl fmt::Display for Parameter {
    ghost output = { λ parameter. Some (parameter_name parameter) };

    fn fmt<W: fmt::Write>(&self, f: &mut fmt::Formatter<W>) -> fmt::Result {
        let name = self.name();
        write!(f, "{name}")
    }
}

/// Why `parse` refuses a head. `Display` shows a sentence.
#[derive(Clone, Copy, Debug, PartialEq, Eq)]
pub enum RequestFault {
    /// No head of an HTTP/1.0 or HTTP/1.1 request starts with the bytes.
    Malformed,
    /// The bytes end within a head: with more of them there may be one.
    Incomplete,
    /// A value is not of the parameter's form, or a parameter is missing that the path needs.
    Parameter(Parameter),
    /// The path is none of those that are answered.
    NotFound,
    /// The path exists, and the method is not GET.
    Method,
    /// The head has more than [`MAX_HEAD_LEN`](crate::MAX_HEAD_LEN) bytes, or more than [`MAX_FIELDS`](crate::MAX_FIELDS) field lines.
    TooLong,
    /// Memory ran out.
    NoMemory,
}

impl fmt::Display for RequestFault {
    ghost output = { λ fault. Some (request_fault_text fault) };

    fn fmt<W: fmt::Write>(&self, f: &mut fmt::Formatter<W>) -> fmt::Result {
        match self {
            RequestFault::Malformed => write!(f, "this is no HTTP/1.x request"),
            RequestFault::Incomplete => write!(f, "the request ends within its head"),
            RequestFault::Parameter(parameter) => write!(
                f,
                "the parameter {parameter} is missing or wrong"
            ),
            RequestFault::NotFound => write!(f, "no such path"),
            RequestFault::Method => write!(f, "only GET is answered here"),
            RequestFault::TooLong => write!(f, "the head of the request is too long"),
            RequestFault::NoMemory => write!(f, "out of memory"),
        }
    }
}

impl Error for RequestFault {}

impl RequestFault {
    /// The status code of the reply.
    pub fn status(self) -> u16
        ensures { result ≡ status_of self }
    {
        match self {
            RequestFault::Malformed | RequestFault::Incomplete | RequestFault::Parameter(_) => 400,
            RequestFault::NotFound => 404,
            RequestFault::Method => 405,
            RequestFault::TooLong => 431,
            RequestFault::NoMemory => 500,
        }
    }
}

impl From<AllocError> for RequestFault {
    ghost from_gives = { λ _ e. e ≡ NoMemory };

    fn from(_error: AllocError) -> RequestFault {
        RequestFault::NoMemory
    }
}
