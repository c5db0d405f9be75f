//! Laws of labels. The functions do nothing: their contracts say them.
ghost use Rattle.sel_label.specs.Laws.{NumberedAreTabled, NumberedAreNotPlain};

/// Where held item sets fit words, a node with a numbered label is tabled.
pub fn numbered_are_tabled()
    ensures { NumberedAreTabled }
{}

/// Where all labels are numbered, none is plain.
pub fn numbered_are_not_plain()
    ensures { NumberedAreNotPlain }
{}
