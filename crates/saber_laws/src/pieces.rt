// The laws of the pieces of tasks.
ghost use Rattle.saber_plan.specs.Tasks.{PiecesMakeText};
ghost use Rattle.saber_laws.specs.Pieces.{TasksMakeText};

/// Pieces taken in one after another, in the order of their tasks, make the text of the windows
/// that their rows close, and leave the parts of those that stay open, for every task size.
pub fn pieces_make_text()
    ensures { PiecesMakeText }
{}

/// The same however a query answers, by what each task's arrivals add to the text and by what is
/// kept behind them: the text of the rows of the first tasks is made, and what they leave is kept.
pub fn tasks_make_text()
    ensures { TasksMakeText }
{}
