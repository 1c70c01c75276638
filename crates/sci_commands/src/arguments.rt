//! The program's arguments, whatever it was started as.

use std::env::{Env, FillError};

/// The name that usage and help have, in the place of the one that the program was started by, which may be no text.
const NAME: &[u8] = b"scisim";

/// The option that asks for the reason of a failure.
const WHY: &[u8; 5] = b"--why";

/// An environment in which argument 0 is that name.
#[derive(Clone, Copy)]
pub struct Named<'a, R>(pub &'a R);

impl<R: Env> Env for Named<'_, R> {
    fn arg(&self, i: usize, buf: &mut [u8]) -> Result<usize, FillError> {
        if i > 0 {
            return self.0.arg(i, buf);
        }
        match buf.get_mut(..NAME.len()) {
            Some(front) => {
                front.copy_from_slice(NAME);
                Ok(NAME.len())
            }
            None => Err(FillError::TooLong),
        }
    }

    fn var(&self, name: &str, buf: &mut [u8]) -> Result<usize, FillError> {
        self.0.var(name, buf)
    }

    fn var_at(&self, i: usize, buf: &mut [u8]) -> Result<usize, FillError> {
        self.0.var_at(i, buf)
    }
}

/// Whether `--why` is one of the first 1,023 arguments, whatever bytes the others are.
pub fn asks_why(env: &impl Env) -> bool {
    let mut word = [0; WHY.len()];
    for i in 1..1024 {
        match env.arg(i, &mut word) {
            Ok(count) if count == WHY.len() && word == *WHY => return true,
            Err(FillError::NotPresent) => return false,
            _ => {}
        }
    }
    false
}
