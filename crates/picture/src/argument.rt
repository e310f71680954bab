// The frame number that is asked for: the first argument.
use counters::FrameNumber;
use std::env::FillError;
use std::rt::Env;

// The number that the digits are, where they are one to 255. A sign is no digit.
fn number_of(digits: &[u8]) -> Option<u8> {
    if !digits.iter().all(|byte| byte.is_ascii_digit()) {
        return None;
    }
    str::from_utf8(digits).ok()?.parse().ok()
}

// Frame 0 has no fillers, so one has to be able to ask for another. What is no number asks for a frame that there is not, which is refused.
pub fn asked(rt: &impl Env) -> FrameNumber {
    let mut digits = [0u8; 20];
    let number = match rt.arg(1, &mut digits) {
        Ok(n) => number_of(&digits[..n]),
        Err(FillError::NotPresent) => Some(0),
        Err(FillError::TooLong) => None,
    };
    FrameNumber(number.map_or(256, u32::from))
}
