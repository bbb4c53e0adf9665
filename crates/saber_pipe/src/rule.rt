// The rule of a pipe: what was sent is what was got, and then what the queue holds; and what was
// promised begins with what was sent.
ghost use Rattle.std.specs.Prelude.{Option, None, List};
ghost use Rattle.saber_pipe.specs.declared.items.Item.{Item};

use crate::Item;
use crossbeam_queue::protocol::{Join, Lesson, Outcome, Protocol, Split};
use crossbeam_queue::{Pass, RuledArrayQueue};
use std::collections::LinkedList;
use std::marker::{Brand, PhantomData};

// What a pass may do, what it has sent or knows to have been sent, what it has got, and all that is
// ever sent, once that was promised. No value of it is made.
pub struct Log {
    pub sends: bool,
    pub gets: bool,
    pub sent: LinkedList<Item>,
    pub got: LinkedList<Item>,
    pub whole: Option<LinkedList<Item>>,
}

// The rule, and that of a new pipe nothing was sent.
pub struct InOrder;

impl Protocol<Item, Log> for InOrder {
    ghost use Rattle.std.specs.Prelude.{true, [], None};
    ghost use Rattle.saber_pipe.specs.Order.{log, Relayed};

    ghost holds = { Relayed };

    ghost first = { log true true [] [] None };
}

// One end sends, the other gets.
pub struct Ends;

impl Split<Log> for Ends {
    ghost use Rattle.std.specs.Prelude.{true, false, [], None};
    ghost use Rattle.saber_pipe.specs.Order.{log};

    ghost left = { λ v. log true false v.sent [] v.whole };

    ghost right = { λ v. log false true [] v.got None };
}

// All that is ever sent, as it is named for one call.
pub(crate) trait Promise {
    ghost whole: { Option (List Item) };
}

impl Promise for Brand {
    ghost whole = { None };
}

// The end that sends promises all that it will have sent, and another pass is told so.
pub(crate) struct Promises<J> {
    named: PhantomData<J>,
}

impl<J: Promise> Split<Log> for Promises<J> {
    ghost use Rattle.std.specs.Prelude.{true, false, []};
    ghost use Rattle.saber_pipe.specs.Order.{log};

    ghost left = { λ v. log true false v.sent [] J.whole };

    ghost right = { λ v. log false false [] [] J.whole };
}

// Another pass is told what this one knows.
pub struct Tells;

impl Split<Log> for Tells {
    ghost use Rattle.std.specs.Prelude.{false, []};
    ghost use Rattle.saber_pipe.specs.Order.{log};

    ghost left = { λ v. v };

    ghost right = { λ v. log false false v.sent [] v.whole };
}

// The end that gets takes in what another pass knows of what was sent and promised, and its leave
// to send.
pub struct IsTold;

impl Join<Log> for IsTold {
    ghost use Rattle.std.specs.Prelude.{true, false, [], None};
    ghost use Rattle.saber_pipe.specs.Order.{log};

    ghost both = { λ v w. log w.sends true w.sent v.got w.whole };

    ghost spent = { log false false [] [] None };
}

// One more was sent. A full queue tells that it holds the last of what was sent.
pub struct Sends;

impl Outcome<Item, Log> for Sends {
    ghost use Rattle.std.specs.Prelude.{◌≡◌, ◌∷◌, ◌++◌, []};
    ghost use Rattle.saber_pipe.specs.Order.{log};

    ghost then = { λ v x w. w ≡ log v.sends v.gets (v.sent ++ x ∷ []) v.got v.whole };
}

impl Lesson<Item, Log> for Sends {
    ghost use Rattle.saber_pipe.specs.Order.{HoldsLastOf};

    ghost fact = { λ v items. HoldsLastOf v.sent items };
}

// One more was got, and no mark before it. An empty queue tells that all was got that the end knows
// to have been sent.
pub struct Gets;

impl Outcome<Item, Log> for Gets {
    ghost use Rattle.std.specs.Prelude.{◌≡◌, ◌∷◌, ◌++◌, [], None};
    ghost use Rattle.saber_pipe.specs.Order.{log, mark_of};

    ghost then = { λ v x w. (w ≡ log v.sends v.gets v.sent (v.got ++ x ∷ []) v.whole) × (mark_of v.got ≡ None) };
}

impl Lesson<Item, Log> for Gets {
    ghost use Rattle.std.specs.Prelude.{◌++◌};
    ghost use Rattle.saber_pipe.specs.Order.{BeginsWith};

    ghost fact = { λ v items. BeginsWith (v.got ++ items) v.sent };
}

// What was sent is what was got, and then what the queue holds.
pub struct KeepsOrder;

impl Lesson<Item, Log> for KeepsOrder {
    ghost use Rattle.std.specs.Prelude.{◌≡◌, ◌++◌};

    ghost fact = { λ v items. v.sent ≡ v.got ++ items };
}

// What was promised begins with what was got.
pub struct KeepsPromise;

impl Lesson<Item, Log> for KeepsPromise {
    ghost use Rattle.saber_pipe.specs.Order.{Promised};

    ghost fact = { λ v items. Promised v.whole v.got };
}

pub(crate) type Line = RuledArrayQueue<Item, Log, InOrder>;

pub(crate) type End = Pass<Item, Log>;
