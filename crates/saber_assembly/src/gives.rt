// The tasks that are given, and their pieces.
ghost use Rattle.saber_assembly.specs.Gives.{GivesMakeText, GivenTasksMakeText};

/// Whatever happens to a core, for any number of slots and seats and over every list of events: the
/// pieces of the tasks that were given, taken in one after another in the order of the gives, make
/// the text of those tasks' rows, and leave what is to be kept behind them.
pub fn gives_make_text()
    // Of windows that print their answers as they are, and of rows: by the parts in the pieces.
    ensures alike { GivesMakeText }
    // Of every query: where each piece adds what its task's arrivals add to the text.
    ensures each_way { GivenTasksMakeText }
{}
