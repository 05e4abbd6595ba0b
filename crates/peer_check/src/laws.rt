//! What a comparison shows. A law is the contract of a function that does nothing.

ghost use Rattle.std.specs.Prelude.{◌≡◌, [], None};
ghost use Rattle.records.specs.Contents.{Content, AreCompatible};
ghost use Rattle.archive.specs.Store.{IsLawfulContent};
ghost use Rattle.peer_check.specs.Comparing.{Comparison, FindsAmong};
ghost use Rattle.peer_check.specs.Truth.{IsAnsweredFrom, AgreeAtLast};
ghost use Rattle.peer_check.specs.declared.comparing.Extent.TheVariants.{Last, All};

/// Where a comparison of last records with a peer that tells the truth went on until nothing came, and found nothing, the last
/// record that both held as it began, of each replica, is the same at both.
pub fn what_differs_is_found()
    ensures { (R S : Content) (c : Comparison) → IsLawfulContent R → IsLawfulContent S
        → IsAnsweredFrom Last S c → FindsAmong Last R c None → c.brought ≡ []
        → AgreeAtLast R S }
{}

/// Where a comparison of all records with such a peer went on until nothing came, and found nothing, each record that both
/// held as it began is the same at both.
pub fn all_that_differs_is_found()
    ensures { (R S : Content) (c : Comparison) → IsLawfulContent R → IsLawfulContent S
        → IsAnsweredFrom All S c → FindsAmong All R c None → c.brought ≡ []
        → AreCompatible R S }
{}
