// The law of the input's end.
ghost use Rattle.saber_laws.specs.Ends.{EndsCloseAll};

/// The end closes the windows that are begun.
pub fn ends_close_all()
    ensures { EndsCloseAll }
{}
