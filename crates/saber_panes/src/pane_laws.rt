// The law of panes.
ghost use Rattle.saber_panes.specs.PaneLaws.{WindowsArePanes};

/// The merge of a window's panes is its part: what tasks keep by panes means what they keep by
/// windows.
pub fn windows_are_panes()
    ensures { WindowsArePanes }
{}
