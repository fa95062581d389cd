// Why a rule was not carried out, in one sentence.
use console::NotARule;
use std::alloc::AllocError;
use std::io;
use thiserror::Error;

#[derive(Debug, Drop, Error)]
pub enum Refusal {
    #[error("a rule and a file are expected, as in: apply RULE FILE (apply --help says more)")]
    Arguments,
    #[error("the arguments can't be read as UTF-8: {0}")]
    NotText(io::Error),
    #[error(transparent)]
    Rule(#[from] NotARule),
    #[error("the file {0} can't be read: {1}")]
    File(String, io::Error),
    // What was asked for could not be read or written otherwise.
    #[error(transparent)]
    Io(#[from] io::Error),
    #[error("there is no memory for the file")]
    Memory(#[from(alloc)] AllocError),
}
