// A capture as the program's lines, step by step: what stands in the window, and the lines that it tells.
// It knows `reel`, and what a step of a program answers. It must never know where the bytes come from, nor where they go.
#![tactic(auto)]

ghost use Rattle.std.specs.Prelude.{◌≤◌};
ghost use Rattle.laws.specs.Kit.{length};
ghost use Rattle.text.specs.Lines.{line_room};
ghost use Rattle.window.specs.Step.{Fits, StepGives, shown};
ghost use Rattle.spool.specs.Step.{lead_move, rolled_move, move_by};
ghost use Rattle.reel.specs.Step.{begin_of, take_of};

use capture::HEADER;
use reel::{Asked, Reel};
use window::{Span, Told};

// The header is still wanted, or the reel behind it. An enum of its own, and no Option: each is a stage of the reading by its name, and
// `Leader` is not the lack of an answer.
#[derive(Clone, Copy, Debug, PartialEq, Eq)]
pub enum Stage {
    Leader(Asked),
    Rolling(Reel),
}

// The stage after a step, and what the program does with it.
#[derive(Clone, Copy, Debug, PartialEq, Eq)]
pub struct Stepped {
    pub stage: Stage,
    pub told: Told,
}

// The start of the capture.
fn lead(asked: Asked, span: Span, window: &[u8], out: &mut [u8]) -> Stepped
    requires { Fits span (length window.now) × (line_room ≤ length out.old) }
    ensures { StepGives span (lead_move asked (begin_of asked (shown span window.now) span.last))
        result.stage result.told out.new }
{
    match reel::begin(asked, &window[span.from..span.held], span.last) {
        Ok(None) => Stepped {
            stage: Stage::Leader(asked),
            told: Told {
                span,
                written: 0,
                wants: true,
                over: false,
            },
        },
        Err(refusal) => Stepped {
            stage: Stage::Leader(asked),
            told: Told {
                span,
                written: text::put_refusal(refusal.number(), 0, out, 0),
                wants: false,
                over: true,
            },
        },
        Ok(Some(reel)) => Stepped {
            stage: Stage::Rolling(reel),
            told: Told {
                span: span.past(HEADER),
                written: 0,
                wants: false,
                over: false,
            },
        },
    }
}

// The records behind it.
fn roll_on(reel: Reel, span: Span, window: &[u8], out: &mut [u8]) -> Stepped
    requires { Fits span (length window.now) }
    ensures { StepGives span (rolled_move (take_of reel (shown span window.now) span.last (length out.old)))
        result.stage result.told out.new }
{
    let taken = reel.take(&window[span.from..span.held], span.last, out);
    Stepped {
        stage: Stage::Rolling(taken.reel),
        told: Told {
            span: span.past(taken.used),
            written: taken.written,
            wants: taken.used == 0,
            over: taken.ended,
        },
    }
}

impl Stage {
    // The lines that the window tells from here, as far as `out` has room.
    pub fn step(self, span: Span, window: &[u8], out: &mut [u8]) -> Stepped
        requires { Fits span (length window.now) × (line_room ≤ length out.old) }
        ensures { StepGives span (move_by self (shown span window.now) span.last (length out.old))
            result.stage result.told out.new }
    {
        match self {
            Stage::Leader(asked) => lead(asked, span, window, out),
            Stage::Rolling(reel) => roll_on(reel, span, window, out),
        }
    }
}
