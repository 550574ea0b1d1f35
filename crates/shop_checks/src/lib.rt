// Document 01's shop checks, and worked moves and records beside them, as contracts: no code. All are proved by
// computation.
#![tactic(auto)]

ghost use Rattle.shop_checks.specs.ShopChecks.{ShopChecks};
ghost use Rattle.shop_checks.specs.WorkedMoves.{PromiseApplies, RefusalsInOrder, RefusedRecords};

// All ● lines of document 01: one table, proved by one statement.
pub fn shop_checks()
    ensures { ShopChecks }
{}

// The promise of demand 3 is about moves that are accepted, and tells plans apart.
pub fn promise_applies()
    ensures { PromiseApplies }
{}

// Refusals 1 to 5, each on a move.
pub fn refusals_in_order()
    ensures { RefusalsInOrder }
{}

// Refusal 8 in each of its forms, before any other.
pub fn refused_records()
    ensures { RefusedRecords }
{}
