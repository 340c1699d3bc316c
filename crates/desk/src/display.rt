// How a request and what is said to it print.

ghost use Rattle.std.specs.Prelude.{Some};
ghost use Rattle.desk.specs.Texts.{request_text, answer_text, refusal_text};

use crate::{Answer, Refusal, Request};
use std::error::Error;
use std::fmt;

impl fmt::Display for Request {
    ghost output = { λ q. Some (request_text q) };

    fn fmt<W: fmt::Write>(&self, f: &mut fmt::Formatter<W>) -> fmt::Result {
        match self {
            Request::Begin { seat } => write!(f, "BEGIN {seat}"),
            Request::Lock { seat, record } => write!(f, "LOCK {seat} {record}"),
            Request::Touch { seat, record } => write!(f, "TOUCH {seat} {record}"),
            Request::Release { seat, record } => write!(f, "RELEASE {seat} {record}"),
            Request::Finish { seat } => write!(f, "FINISH {seat}"),
        }
    }
}

impl fmt::Display for Answer {
    ghost output = { λ a. Some (answer_text a) };

    fn fmt<W: fmt::Write>(&self, f: &mut fmt::Formatter<W>) -> fmt::Result {
        match self {
            Answer::Started { ticket } => write!(f, "started {ticket}"),
            Answer::Granted => f.write_str("granted"),
            Answer::Held => f.write_str("held"),
            Answer::Touched => f.write_str("touched"),
            Answer::Released => f.write_str("released"),
            Answer::Finished => f.write_str("finished"),
            Answer::WaitHeld => f.write_str("wait 1"),
            Answer::WaitWake => f.write_str("wait 2"),
        }
    }
}

impl fmt::Display for Refusal {
    ghost output = { λ why. Some (refusal_text why) };

    fn fmt<W: fmt::Write>(&self, f: &mut fmt::Formatter<W>) -> fmt::Result {
        write!(f, "refused {}", self.number())
    }
}

impl Error for Refusal {}
