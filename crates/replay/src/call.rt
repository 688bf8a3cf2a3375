// A call that a line stores: what is lent, what is asked, and what the reference answered.
use crate::event::Kind;
use crate::fault::Malformed;
use crate::lent::Lent;
use crate::look::StoredLook;
use crate::settings;
use crate::step::StoredStep;
use crate::stored::Stored;
use crate::words::Words;
use bench::answers::Pick;
use bench::seats::Settings;
use vectors::vec3::Vec3;

#[derive(Drop)]
pub struct Call<'a> {
    pub lent: Lent,
    pub seat: usize,
    pub asked: Asked<'a>,
}

// What is asked, with the answer. A refusal is the number of it, 0 for none; any number, since one that there is
// not is an answer that differs, and not malformed.
#[derive(Drop)]
pub enum Asked<'a> {
    Load(Load<'a>),
    Unload {
        refusal: u64,
    },
    Pin {
        vertex: usize,
        component: usize,
        byte: u8,
        refusal: u64,
    },
    // None is stored where it is refused.
    Look {
        kind: usize,
        stored: Option<StoredLook<'a>>,
    },
    Companion {
        kind: usize,
        refusal: u64,
    },
    // A static step has no time.
    Step {
        pick: Pick,
        dt: Option<f64>,
        answer: StoredStep,
    },
}

#[derive(Drop)]
pub struct Load<'a> {
    pub n: usize,
    pub settings: Settings,
    pub positions: &'a [u64],
    pub frames: &'a [u64],
    pub refusal: u64,
}

impl<'a> Call<'a> {
    pub fn read(kind: Kind, words: &mut Words<'a>) -> Result<Call<'a>, Malformed> {
        Ok(Call {
            lent: Lent::read(words)?,
            seat: words.value()?,
            asked: Asked::read(kind, words)?,
        })
    }

    // How much of the work area the call may change: what it is lent, for a step that is not declined
    // with 1 to 6.
    pub fn free_work(&self) -> usize {
        let lent = self.lent.work.length;
        match &self.asked {
            Asked::Step { answer, .. } if !(1..=6).contains(&answer.refusal) => lent,
            _ => 0,
        }
    }
}

impl<'a> Asked<'a> {
    fn read(kind: Kind, words: &mut Words<'a>) -> Result<Asked<'a>, Malformed> {
        Ok(match kind {
            Kind::Load => Asked::Load(Load::read(words)?),
            Kind::Unload => Asked::Unload {
                refusal: words.word()?,
            },
            Kind::Pin => Asked::Pin {
                vertex: words.value()?,
                component: words.value()?,
                byte: words.value()?,
                refusal: words.word()?,
            },
            Kind::Look => Asked::Look {
                kind: words.value()?,
                stored: StoredLook::read(words)?,
            },
            Kind::Companion => Asked::Companion {
                kind: words.value()?,
                refusal: words.word()?,
            },
            Kind::Static => Asked::Step {
                pick: pick(words)?,
                dt: None,
                answer: StoredStep::read(words)?,
            },
            Kind::Dynamic => Asked::Step {
                pick: pick(words)?,
                dt: Some(words.value()?),
                answer: StoredStep::read(words)?,
            },
        })
    }
}

impl<'a> Load<'a> {
    fn read(words: &mut Words<'a>) -> Result<Load<'a>, Malformed> {
        Ok(Load {
            n: words.value()?,
            settings: settings::of(words.take()?),
            positions: words.list()?,
            frames: words.list()?,
            refusal: words.word()?,
        })
    }
}

// Vertex and goal, if the line has them.
fn pick(words: &mut Words<'_>) -> Result<Pick, Malformed> {
    match words.word()? {
        0 => Ok(Pick::Nothing),
        1 => Ok(Pick::At(
            words.value()?,
            Vec3 {
                x: words.value()?,
                y: words.value()?,
                z: words.value()?,
            },
        )),
        _ => Err(Malformed),
    }
}
