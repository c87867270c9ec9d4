//! What holds of documents that one server holds.

ghost use Rattle.sporc_docs.specs.Machine.{IsIsolated};

/// Documents do not touch one another: for every list of events of sessions, in whatever order, the
/// answers to those of one document are the ones of the machine that holds this document alone,
/// asked their events.
pub fn documents_are_isolated()
    ensures { IsIsolated }
{}
