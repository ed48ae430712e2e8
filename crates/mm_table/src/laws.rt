//! Facts about all tables. Each function does nothing; its contract is the fact.

pub use mm_rules::laws::{
    closer_is_victim, counts_are_exact, events_keep_laws, keys_are_fresh, keys_never_return,
    laws_are_not_empty, newest_closer_is_victim, only_waits_close_cycles, opening_is_at_rest,
    opening_is_lawful, others_have_no_victim, public_labels_never_fall, quiet_has_no_cycle,
    raises_are_bounded, reached_is_lawful, rest_stays, settle_ends, settle_gives_rest,
    steps_are_determined, verdicts_are_sound, victim_is_newest,
};
pub use mm_settle_lemmas::laws::shown_changes_are_told;
