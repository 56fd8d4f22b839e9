//! What holds of every journal and its text.
ghost use Rattle.af_model.specs.Journals.{JournalData};
ghost use Rattle.af_journal.specs.Readings.{IsReadBack};

/// What `write` has written `read` gives back: the text of a journal has one reading, and this is the journal.
pub fn what_is_written_is_read_back()
    ensures { (j : JournalData) → IsReadBack j }
{}
