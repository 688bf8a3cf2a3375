// What a step answers, as it is stored.
use crate::fault::Malformed;
use crate::stored::Stored;
use crate::words::Words;
use bench::answers::StepAnswer;

// Of a step that is refused all but the number of the refusal are zeros. It is any number, as in call.rt.
#[derive(Clone, Copy)]
pub struct StoredStep {
    pub refusal: u64,
    energy: u64,
    count: u64,
    ratio: u64,
}

impl StoredStep {
    pub fn read(words: &mut Words<'_>) -> Result<StoredStep, Malformed> {
        Ok(StoredStep {
            refusal: words.word()?,
            energy: words.word()?,
            count: words.word()?,
            ratio: words.word()?,
        })
    }

    // Whether this is the answer.
    pub fn is(&self, answer: StepAnswer) -> bool {
        match answer {
            StepAnswer::Accepted {
                energy,
                ratio,
                count,
            } => self.has(0, energy, count, ratio),
            StepAnswer::Refused(refusal) => self.has(refusal.into(), 0.0, 0, 0.0),
        }
    }

    fn has(&self, refusal: u8, energy: f64, count: usize, ratio: f64) -> bool {
        refusal.is(self.refusal)
            & energy.is(self.energy)
            & count.is(self.count)
            & ratio.is(self.ratio)
    }
}
