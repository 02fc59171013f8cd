// The words of a command line of an environment that has more of them than any form has.

use dgn_desk::words;
use std::env::FillError;
use std::process::Abort;
use std::rt::Env;
use std::test::Fail;

// The words of a command line, with the program's name in front.
const COMMAND_LINE: [&str; 6] = ["dgnedit", "edit", "in", "s", "out", "more"];

// An environment of these words and of no variable.
#[derive(Drop)]
struct Given;

impl Env for Given {
    fn arg(&self, i: usize, buf: &mut [u8]) -> Result<usize, FillError> {
        if i >= COMMAND_LINE.len() {
            return Err(FillError::NotPresent);
        }
        let word = COMMAND_LINE[i].as_bytes();
        if word.len() > buf.len() {
            return Err(FillError::TooLong);
        }
        buf[..word.len()].copy_from_slice(word);
        Ok(word.len())
    }

    fn var(&self, _name: &str, _buf: &mut [u8]) -> Result<usize, FillError> {
        Err(FillError::NotPresent)
    }

    fn var_at(&self, _i: usize, _buf: &mut [u8]) -> Result<usize, FillError> {
        Err(FillError::NotPresent)
    }
}

// All words behind the name are given, the fifth too, so that a form with a word too many is none.
#[test]
fn each_word_behind_the_name(rt: HostRuntime) -> Result<(), Fail> {
    let given = words(&(Given, rt.alloc()))?;
    assert!(rt; given.len() == 5);
    for (word, wanted) in given.iter().zip(COMMAND_LINE.iter().skip(1)) {
        assert!(rt; word.as_str() == *wanted);
    }
    Ok(())
}
