//! A step that is asked for.
ghost use Rattle.std.specs.Prelude.{◌≡◌, true};
ghost use Rattle.txn_book.specs.Acts.{act_of};
ghost use Rattle.txn_sessions.specs.Fits.{fits};

use crate::line::Stage;
use txn_book::Step;

/// A step that is asked for, and the stage at which its statement is.
#[derive(Drop)]
pub struct Asked {
    pub step: Step,
    pub stage: Stage,
    ghost fitting: { fits (act_of step.act) stage ≡ true },
}

impl Asked {
    /// Of a stage at which the statement asks for such a step.
    pub fn new(step: Step, stage: Stage) -> Asked
        requires { fits (act_of step.act) stage ≡ true }
        ensures step { result.step ≡ step }
        ensures stage { result.stage ≡ stage }
    {
        Asked { step, stage }
    }

    /// Lets it go. Its drop is proved here alone.
    pub fn let_go(self) {
        self.into_stage().let_go();
    }

    /// The stage. The step is let go.
    pub fn into_stage(self) -> Stage
        ensures { result ≡ self.stage }
    {
        let Asked { step, stage } = self;
        step.let_go();
        stage
    }
}
