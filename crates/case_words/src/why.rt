// Why a line is no form, or a text no case.
use case_tables::limits;
use std::error::Error;
use std::fmt;

#[derive(Clone, Copy, Debug, PartialEq, Eq)]
pub enum Why {
    // more bytes than a line may have
    Long,
    // no form has this name, or no query of this name is written so
    Name,
    // too few tokens or too many, or a bracket that does not stand there
    Tokens,
    // this token, from 1, is not what the form takes there
    Token(u32),
    // a form that stands once
    Again,
    // more rows than this number
    Rows(u32),
    // more bytes of ids, or of queries, than are held
    Ids,
    Queries,
    // a call before any static, a point before any shape
    NoStatic,
    NoShape,
    // the text lacks a form
    NoFeed,
    NoTrip,
    NoNow,
    // the text does not end
    Endless,
}

impl fmt::Display for Why {
    fn fmt<W: fmt::Write>(&self, f: &mut fmt::Formatter<W>) -> fmt::Result {
        match self {
            Why::Long => write!(f, "longer than any form"),
            Why::Name => write!(f, "no form of this name, or no query that is written so"),
            Why::Tokens => write!(
                f,
                "too few words or too many, or a bracket out of its place"
            ),
            Why::Token(i) => write!(f, "not what this form takes as word {i}"),
            Why::Again => write!(f, "stands again"),
            Why::Rows(n) => write!(f, "more rows than are held, which are {n}"),
            Why::Ids => {
                let most = limits::ID_BYTES;
                write!(f, "more bytes of ids than are held, which are {most}")
            }
            Why::Queries => {
                write!(
                    f,
                    "more queries than are held, or a query for a program that holds none"
                )
            }
            Why::NoStatic => write!(f, "no static stands above it"),
            Why::NoShape => write!(f, "no shape stands above it"),
            Why::NoFeed => write!(f, "the text ends without a feed"),
            Why::NoTrip => write!(f, "the text ends without a trip"),
            Why::NoNow => write!(f, "the text ends without a now"),
            Why::Endless => write!(f, "the text does not end"),
        }
    }
}

impl Error for Why {}
