//! Facts about all tables. Each function does nothing; its contract is the fact, over the definitions of `specs/`.
ghost use Rattle.mm_rules.specs.Adopt.{AdoptKeepsGraph, AdoptKeepsLaws, AdoptStaysAtRest};
ghost use Rattle.mm_rules.specs.Laws.{CountsAreExact, EventsKeepLaws, KeysAreFresh, KeysNeverReturn, LawsAreNotEmpty, OpeningIsLawful, PublicLabelsNeverFall, QuietHasNoCycle, RaisesAreBounded, ReachedIsLawful, SettleEnds, SettleGivesRest, StepsAreDetermined, VerdictsAreSound};
ghost use Rattle.mm_rules.specs.Rest.{OpeningIsAtRest, RestStays};
ghost use Rattle.mm_rules.specs.Victims.{CloserIsVictim, NewestCloserIsVictim, OnlyWaitsCloseCycles, OthersHaveNoVictim, VictimIsNewest};
ghost use Rattle.mm_rules.specs.TakeBack.{CloserIsRefused, ClosesWhereLedBack, RestHasNoCycle, TakeBackKeepsLaws, TakeBackStaysAtRest};
ghost use Rattle.mm_rules.specs.Withdraw.{CarriedIsBehindVictim, GiveUpIsWithdraw, NoVictimNoCarried, RenewKeepsLaws, WithdrawCounts, WithdrawHasNoVictim, WithdrawKeepsLaws, WithdrawLowersNone, WithdrawStaysAtRest};

/// The state of a table that was just opened keeps all laws, whatever its configuration, as long as that is in range.
pub fn opening_is_lawful()
    ensures { OpeningIsLawful }
{}

/// Every event keeps all laws, whether it is refused or accepted.
pub fn events_keep_laws()
    ensures { EventsKeepLaws }
{}

/// So every state that is reached from an opening has them.
pub fn reached_is_lawful()
    ensures { ReachedIsLawful }
{}

/// An event has one reply and one new state: two calls that make it of the same state answer the same, and lead to the same state.
pub fn steps_are_determined()
    ensures { StepsAreDetermined }
{}

/// The laws are not empty: from an opening a state is reached in which a verdict stands.
pub fn laws_are_not_empty()
    ensures { LawsAreNotEmpty }
{}

/// Each verdict is of a transaction on a cycle of waits, the private label of which is the greatest there, and no cycle has two verdicts.
pub fn verdicts_are_sound()
    ensures { VerdictsAreSound }
{}

/// A table with nothing to transmit, nothing to detect and no verdict has no cycle of waits.
pub fn quiet_has_no_cycle()
    ensures { QuietHasNoCycle }
{}

/// No event lowers a public label.
pub fn public_labels_never_fall()
    ensures { PublicLabelsNeverFall }
{}

/// An accepted event adds one to the accepted events, the verdicts that it gives to the verdicts, and one to the aborts if it is an
/// abort. A refused one changes none of the three.
pub fn counts_are_exact()
    ensures { CountsAreExact }
{}

/// Begin gives a key that was not live.
pub fn keys_are_fresh()
    ensures { KeysAreFresh }
{}

/// A key that is live no more never is again.
pub fn keys_never_return()
    ensures { KeysNeverReturn }
{}

/// Transmits and detects alone raise no more labels than there are waiting processes, times processes.
pub fn raises_are_bounded()
    ensures { RaisesAreBounded }
{}

/// A settle always ends.
pub fn settle_ends()
    ensures { SettleEnds }
{}

/// After an accepted settle the table is at rest: one verdict stands on each cycle, and each process shows the greatest label that stood
/// along its waits.
pub fn settle_gives_rest()
    ensures { SettleGivesRest }
{}

/// If the table is at rest, the settle after a request that waits convicts the requester exactly if its wait closed a cycle of waits, and
/// nobody else is.
pub fn closer_is_victim()
    ensures { CloserIsVictim }
{}

/// More exactly: it is so if one verdict stands on each cycle of waits, and the label under which the transaction waits is greater
/// than each private one along the waits from its holder.
pub fn newest_closer_is_victim()
    ensures { NewestCloserIsVictim }
{}

/// If the label of the transaction is not greater than each of those, the settle convicts another transaction of the cycle.
pub fn victim_is_newest()
    ensures { VictimIsNewest }
{}

/// If one verdict stands on each cycle of waits, it is so after each event by which nobody begins to wait.
pub fn only_waits_close_cycles()
    ensures { OnlyWaitsCloseCycles }
{}

/// A settle after such an event gives no verdict.
pub fn others_have_no_victim()
    ensures { OthersHaveNoVictim }
{}

/// A table that was just opened is at rest.
pub fn opening_is_at_rest()
    ensures { OpeningIsAtRest }
{}

/// A table stays at rest by each event after which each holder shows the label that it showed before.
pub fn rest_stays()
    ensures { RestStays }
{}

/// A process that waits without a verdict, and shows its own label, may get a new one, in any state.
pub fn renew_keeps_laws()
    ensures { RenewKeepsLaws }
{}

/// A withdrawal from rest keeps all laws.
pub fn withdraw_keeps_laws()
    ensures { WithdrawKeepsLaws }
{}

/// A withdrawal from rest lowers no public label.
pub fn withdraw_lowers_none()
    ensures { WithdrawLowersNone }
{}

/// A settle after a withdrawal gives no verdict. The table is then lawful and at rest, so a request that closes a cycle next makes its own transaction the victim (`closer_is_victim`).
pub fn withdraw_has_no_victim()
    ensures { WithdrawHasNoVictim }
{}

/// After it the table is at rest without a settle if each holder shows the label that it showed before.
pub fn withdraw_stays_at_rest()
    ensures { WithdrawStaysAtRest }
{}

/// A withdrawal is counted as a give-up is, and gives or takes no verdict.
pub fn withdraw_counts()
    ensures { WithdrawCounts }
{}

/// If a give-up is accepted, a withdrawal has the same reply and the same new state.
pub fn give_up_is_withdraw()
    ensures { GiveUpIsWithdraw }
{}

/// A withdrawal is refused as `Carried` only to a transaction that waits, directly or over others, for a victim, which has yet to abort.
pub fn carried_is_behind_victim()
    ensures { CarriedIsBehindVictim }
{}

/// In a table without victims no withdrawal is refused as `Carried`.
pub fn no_victim_no_carried()
    ensures { NoVictimNoCarried }
{}

/// One with a verdict may take back its wait and its verdict, in any state: all laws stay.
pub fn take_back_keeps_laws()
    ensures { TakeBackKeepsLaws }
{}

/// A table at rest stays at rest by that, without a settle.
pub fn take_back_stays_at_rest()
    ensures { TakeBackStaysAtRest }
{}

/// In a table at rest without a verdict nobody waits for itself, directly or over others.
pub fn rest_has_no_cycle()
    ensures { RestHasNoCycle }
{}

/// Who begins to wait closes a cycle of waits exactly if the waits led from its holder to it before.
pub fn closes_where_led_back()
    ensures { ClosesWhereLedBack }
{}

/// If the table is at rest without a verdict, a request closes a cycle, the table is settled, and the requester takes back its wait, then the
/// table is at rest without a verdict again, and but for labels and counts as it was.
pub fn closer_is_refused()
    ensures { CloserIsRefused }
{}

/// A live transaction, also one that waits, may become the owner of a resource that nobody owns: all laws stay.
pub fn adopt_keeps_laws()
    ensures { AdoptKeepsLaws }
{}

/// Nobody has another holder or another label by that.
pub fn adopt_keeps_graph()
    ensures { AdoptKeepsGraph }
{}

/// So a table at rest stays at rest.
pub fn adopt_stays_at_rest()
    ensures { AdoptStaysAtRest }
{}
