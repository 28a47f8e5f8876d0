//! What is proved of all lists of calls, carried by a function.
ghost use Rattle.calls.specs.Theorems.{SheetsAgree, SheetsInTurn, SheetsKeep};

/// A sheet whose calls were all answered as they are defined keeps the promise; two such sheets on banks of one meaning
/// agree; and the tally goes on from one sheet to the next.
pub fn sheets_keep() -> u8
    ensures promise { SheetsKeep }
    ensures agree { SheetsAgree }
    ensures in_turn { SheetsInTurn }
{
    0
}
