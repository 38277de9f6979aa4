// What part of its line a case is in.
use crate::answer::Answer;
use reading::Reading;

#[derive(Clone, Copy)]
pub enum Part {
    Mark,
    Command,
    // In document 01's answer.
    Ours(Answer),
    // In the crate's, after one of document 01 that was right or not.
    Crate { answer: Answer, is_ours_right: bool },
}

// What a line is marked as: the same, or of classes, and whether it has a letter that names none.
#[derive(Clone, Copy, PartialEq, Eq, Debug, Default)]
pub struct Mark {
    pub is_same: bool,
    pub is_classed: bool,
    pub is_wrong: bool,
}

impl Part {
    // The reading, once there is one.
    pub fn reading(&self) -> Option<Reading> {
        match self {
            Part::Mark | Part::Command => None,
            Part::Ours(answer) | Part::Crate { answer, .. } => Some(answer.reading),
        }
    }

    // Whether the whole line was right, with its end: document 01's answer alone where it is marked as the same, else
    // another of the crate.
    pub fn is_right(&self, mark: Mark) -> bool {
        match self {
            Part::Mark | Part::Command => false,
            Part::Ours(answer) => answer.is_same() && mark.is_same && !mark.is_classed,
            Part::Crate {
                answer,
                is_ours_right,
            } => *is_ours_right && !answer.is_same() && mark.is_classed && !mark.is_same,
        }
    }
}
