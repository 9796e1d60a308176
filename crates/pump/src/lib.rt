// A record file as the program's lines, step by step: what stands in the window, and the lines that it tells.
// It knows `printer`, and what a step of a program answers. It must never know where the bytes come from, nor where they go.
#![tactic(auto)]

ghost use Rattle.std.specs.Prelude.{◌≤◌};
ghost use Rattle.laws.specs.Kit.{length};
ghost use Rattle.text.specs.Lines.{line_room};
ghost use Rattle.window.specs.Step.{Fits, StepGives, shown};
ghost use Rattle.pump.specs.Step.{open_move, took_move, move_by};
ghost use Rattle.printer.specs.Step.{begin_of, take_of};

use printer::Walk;
use record::HEAD_BYTES;
use window::{Span, Told};

// The version byte and the parameters are still wanted, or the walk behind them.
// An own enum: each is a stage of the reading by its name, and `Head` is not the lack of an answer.
#[derive(Clone, Copy, Debug, PartialEq, Eq)]
pub enum Stage {
    Head,
    Walking(Walk),
}

// The stage after a step, and what the program does with it.
#[derive(Clone, Copy, Debug, PartialEq, Eq)]
pub struct Stepped {
    pub stage: Stage,
    pub told: Told,
}

// The start of the file.
fn open(span: Span, window: &[u8], out: &mut [u8]) -> Stepped
    requires { Fits span (length window.now) × (line_room ≤ length out.old) }
    ensures { StepGives span (open_move (begin_of (shown span window.now) span.last)) result.stage result.told out.new }
{
    match printer::begin(&window[span.from..span.held], span.last) {
        Ok(None) => Stepped {
            stage: Stage::Head,
            told: Told {
                span,
                written: 0,
                wants: true,
                over: false,
            },
        },
        Err(r) => Stepped {
            stage: Stage::Head,
            told: Told {
                span,
                written: text::put_refusal(r.refusal.number(), r.place, out, 0),
                wants: false,
                over: true,
            },
        },
        Ok(Some(walk)) => Stepped {
            stage: Stage::Walking(walk),
            told: Told {
                span: span.past(HEAD_BYTES),
                written: 0,
                wants: false,
                over: false,
            },
        },
    }
}

// The packets behind it.
fn walk_on(walk: Walk, span: Span, window: &[u8], out: &mut [u8]) -> Stepped
    requires { Fits span (length window.now) }
    ensures { StepGives span (took_move (take_of walk (shown span window.now) span.last (length out.old)))
        result.stage result.told out.new }
{
    let taken = walk.take(&window[span.from..span.held], span.last, out);
    Stepped {
        stage: Stage::Walking(taken.walk),
        told: Told {
            span: span.past(taken.used),
            written: taken.written,
            wants: taken.used == 0,
            over: taken.ended,
        },
    }
}

impl Stage {
    // The lines that the window tells from here, as far as `out` has room.
    pub fn step(self, span: Span, window: &[u8], out: &mut [u8]) -> Stepped
        requires { Fits span (length window.now) × (line_room ≤ length out.old) }
        ensures { StepGives span (move_by self (shown span window.now) span.last (length out.old))
            result.stage result.told out.new }
    {
        match self {
            Stage::Head => open(span, window, out),
            Stage::Walking(walk) => walk_on(walk, span, window, out),
        }
    }
}
