// Why a stop of the tour ends before all is printed.
use counters::refusal::Refusal;
use std::io;

#[derive(Debug, Drop)]
pub enum Trouble {
    Refused(Refusal),
    Output(io::Error),
}

impl From<Refusal> for Trouble {
    fn from(refusal: Refusal) -> Trouble {
        Trouble::Refused(refusal)
    }
}

impl From<io::Error> for Trouble {
    fn from(e: io::Error) -> Trouble {
        Trouble::Output(e)
    }
}
