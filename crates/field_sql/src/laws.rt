//! A law of names between marks.
ghost use Rattle.field_sql.specs.Laws.{QuotationsAreRead};

/// Whatever a name has in it: read by the rule of SQL, the quotation is the name, and ends where it was made to end.
pub fn quotations_are_read()
    ensures { QuotationsAreRead }
{}
