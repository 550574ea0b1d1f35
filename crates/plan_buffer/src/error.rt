// Why nothing is answered: a buffer of a wrong length, or a refusal. And the numbers of answers, for other languages.

ghost use Rattle.std.specs.Prelude.{◌≡◌};
ghost use Rattle.plan_buffer.specs.Buffers.{error_number, plan_number, asked_number};
ghost use Rattle.plan_buffer.specs.declared.error.BufferError.TheVariants.{Refused};

use refusals::Refusal;

#[derive(Clone, Copy, Debug, PartialEq, Eq)]
pub enum BufferError {
    WrongLength,
    Refused(Refusal),
}

impl From<Refusal> for BufferError {
    ghost from_gives = { λ refusal error. error ≡ Refused refusal };

    fn from(refusal: Refusal) -> BufferError {
        BufferError::Refused(refusal)
    }
}

// The archive's own number, for a buffer of a wrong length.
pub const WRONG_LENGTH: u64 = 255;

impl From<BufferError> for u64 {
    ghost from_gives = { λ error number. number ≡ error_number error };

    fn from(error: BufferError) -> u64 {
        match error {
            BufferError::WrongLength => WRONG_LENGTH,
            BufferError::Refused(refusal) => u64::from(refusal),
        }
    }
}

// 0: planned. 1 to 5: refused. 255: a wrong length.
pub fn plan_number(answer: Result<(), BufferError>) -> u64
    ensures { result ≡ plan_number answer }
{
    match answer {
        Ok(()) => 0,
        Err(error) => u64::from(error),
    }
}

// 0: free. 1: blocked. 6: the time isn't finite. 255: a wrong length.
pub fn asked_number(answer: Result<bool, BufferError>) -> u64
    ensures { result ≡ asked_number answer }
{
    match answer {
        Ok(blocked) => u64::from(blocked),
        Err(error) => u64::from(error),
    }
}
