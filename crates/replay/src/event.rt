// The kinds of line, by their first word.
use crate::fault::Malformed;

#[derive(Clone, Copy)]
pub enum Event {
    End,
    Call(Kind),
    // A change by another hand.
    Change,
}

#[derive(Clone, Copy)]
pub enum Kind {
    Load,
    Unload,
    Pin,
    Look,
    Companion,
    Static,
    Dynamic,
}

impl TryFrom<u64> for Event {
    type Error = Malformed;

    fn try_from(word: u64) -> Result<Event, Malformed> {
        match word {
            0 => Ok(Event::End),
            1 => Ok(Event::Call(Kind::Load)),
            2 => Ok(Event::Call(Kind::Unload)),
            3 => Ok(Event::Call(Kind::Pin)),
            4 => Ok(Event::Call(Kind::Look)),
            5 => Ok(Event::Call(Kind::Companion)),
            6 => Ok(Event::Call(Kind::Static)),
            7 => Ok(Event::Call(Kind::Dynamic)),
            8 => Ok(Event::Change),
            _ => Err(Malformed),
        }
    }
}
