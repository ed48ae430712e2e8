//! Scripts with the replies that they are to have: worked examples of the rules, for the tests of the crates that make calls.
/// A script, and what is to be written.
pub struct Row {
    pub name: &'static str,
    pub input: &'static str,
    pub output: &'static str,
}

static FIRST: [Row; 12] = [
    Row {
        name: "empty",
        input: "",
        output: "",
    },
    Row {
        name: "limit_refuses_hand_over",
        input: "table 3 1 1 9\nbegin\nbegin\nbegin\nacquire 0.1 0\nacquire 1.1 0\nacquire 2.1 0\nrelease 0.1 0\nfinish 0.1\nowner 0\nstate 2.1\n",
        output: "ok\nkey 0.1\nkey 1.1\nkey 2.1\ngranted\nwaits 0.1 1.1\nwaits 0.1 1.2\nrefused 7 LabelsExhausted\nrefused 7 LabelsExhausted\nowner 0.1\nwaiting 0 1.2 1.2\n",
    },
    Row {
        name: "retired_slot",
        input: "table 1 1 9 2\nbegin\nfinish 0.1\nbegin\nfinish 0.2\nbegin\n",
        output: "ok\nkey 0.1\nfinished\nkey 0.2\nfinished\nrefused 6 Full\n",
    },
    Row {
        name: "refusals",
        input: "table 2 2 9 9\nbegin\nbegin\nacquire 0.1 0\nacquire 1.1 1\nacquire 0.1 0\nacquire 0.1 1\nrelease 0.1 0\nacquire 0.1 7\nacquire 0.9 7\nacquire 5.1 0\nrelease 1.1 0\ntransmit 1.1\nabort 0.1\nabort 1.1\nfinish 0.1\ntotals\n",
        output: "ok\nkey 0.1\nkey 1.1\ngranted\ngranted\nrefused 4 AlreadyOwns\nwaits 1.1 1.0\nrefused 3 Waiting\nrefused 2 NoResource\nrefused 1 Stale\nrefused 1 Stale\nrefused 5 NotOwner\nrefused 8 NotWaiting\nrefused 9 NoVerdict\nrefused 9 NoVerdict\nrefused 3 Waiting\ntotals 5 0 0\n",
    },
    Row {
        name: "cutting_lines",
        input: "# first\n\n  table 1 1 9 9\r\nbegin extra\n begin \nbegin",
        output: "ok\nmalformed\nkey 0.1\nrefused 6 Full\n",
    },
    Row {
        name: "config_ranges",
        input: "begin\nfly\ntable 0 1 1 1\ntable 4097 1 1 1\ntable 1 65537 1 1\ntable 1 1 17592186044416 1\ntable 1 1 0 1\ntable 1 1 1 0\ntable 4096 65536 17592186044415 4294967295\ntable 1 1 1 1\nacquire 0.1 4294967296\nacquire 0.1 4294967295\n",
        output: "no table\nmalformed\nrefused 11 BadConfig\nrefused 11 BadConfig\nrefused 11 BadConfig\nrefused 11 BadConfig\nrefused 11 BadConfig\nrefused 11 BadConfig\nok\ntable stands\nmalformed\nrefused 1 Stale\n",
    },
    Row {
        name: "freed_slots_first",
        input: "table 4 1 9 9\nbegin\nbegin\nbegin\nfinish 0.1\nfinish 2.1\nbegin\nbegin\nbegin\nbegin\n",
        output: "ok\nkey 0.1\nkey 1.1\nkey 2.1\nfinished\nfinished\nkey 2.2\nkey 0.2\nkey 3.1\nrefused 6 Full\n",
    },
    Row {
        name: "two_cycles",
        input: "table 4 4 100 9\nbegin\nbegin\nbegin\nbegin\nacquire 0.1 0\nacquire 1.1 1\nacquire 2.1 2\nacquire 3.1 3\nacquire 0.1 1\nacquire 1.1 0\nacquire 2.1 3\nacquire 3.1 2\nsettle\nstate 1.1\nstate 3.1\nabort 1.1\nabort 3.1\nowner 1\nowner 3\ntotals\n",
        output: "ok\nkey 0.1\nkey 1.1\nkey 2.1\nkey 3.1\ngranted\ngranted\ngranted\ngranted\nwaits 1.1 1.0\nwaits 0.1 2.1\nwaits 3.1 1.2\nwaits 2.1 2.3\nsettled 2 2\nconvicted 0 2.1 2.1\nconvicted 2 2.3 2.3\naborted\naborted\nowner 0.1\nowner 2.1\ntotals 15 2 2\n",
    },
    Row {
        name: "ring_of_three_settles",
        input: "table 4 4 100 9\nbegin\nbegin\nbegin\nacquire 0.1 0\nacquire 1.1 1\nacquire 2.1 2\nacquire 0.1 1\nacquire 1.1 2\nacquire 2.1 0\nsettle\nstate 0.1\nstate 1.1\nstate 2.1\ntotals\nsettle\n",
        output: "ok\nkey 0.1\nkey 1.1\nkey 2.1\ngranted\ngranted\ngranted\nwaits 1.1 1.0\nwaits 2.1 1.1\nwaits 0.1 2.2\nsettled 3 1\nwaiting 1 1.0 2.2\nwaiting 2 1.1 2.2\nconvicted 0 2.2 2.2\ntotals 10 1 0\nsettled 0 0\n",
    },
    Row {
        name: "used_slot_keeps_labels",
        input: "table 4 4 100 9\nbegin\nbegin\nacquire 0.1 0\nacquire 1.1 1\nacquire 0.1 1\nacquire 1.1 0\ndetect 0.1\ndetect 1.1\ntransmit 0.1\ndetect 1.1\ndetect 1.1\ntotals\nabort 1.1\nowner 0\nowner 1\nstate 0.1\nstate 1.1\ntotals\nbegin\nstate 1.2\nacquire 1.2 0\n",
        output: "ok\nkey 0.1\nkey 1.1\ngranted\ngranted\nwaits 1.1 1.0\nwaits 0.1 2.1\nclear\nclear\nraised 2.1\ndeadlock 2.1\nstanding\ntotals 11 1 0\naborted\nowner 0.1\nowner 0.1\nactive 1.0 2.1\nrefused 1 Stale\ntotals 12 1 1\nkey 1.2\nactive 2.1 2.1\nwaits 0.1 3.1\n",
    },
    Row {
        name: "tail_is_not_convicted",
        input: "table 4 4 100 9\nbegin\nbegin\nbegin\nacquire 0.1 0\nacquire 1.1 1\nacquire 2.1 2\nacquire 0.1 1\nacquire 1.1 2\nacquire 2.1 0\nbegin\nacquire 3.1 0\nsettle\nstate 3.1\nabort 2.1\nowner 2\nstate 1.1\n",
        output: "ok\nkey 0.1\nkey 1.1\nkey 2.1\ngranted\ngranted\ngranted\nwaits 1.1 1.0\nwaits 2.1 1.1\nwaits 0.1 2.2\nkey 3.1\nwaits 0.1 2.3\nsettled 3 1\nwaiting 0 2.3 2.3\naborted\nowner 1.1\nactive 1.1 2.2\n",
    },
    Row {
        name: "hand_over_queue",
        input: "table 4 1 100 9\nbegin\nbegin\nbegin\nbegin\nacquire 0.1 0\nacquire 1.1 0\nacquire 2.1 0\nacquire 3.1 0\nrelease 0.1 0\nstate 1.1\nstate 2.1\nstate 3.1\nrelease 1.1 0\nstate 3.1\nrelease 2.1 0\nrelease 3.1 0\nowner 0\n",
        output: "ok\nkey 0.1\nkey 1.1\nkey 2.1\nkey 3.1\ngranted\nwaits 0.1 1.1\nwaits 0.1 1.2\nwaits 0.1 1.3\nto 1.1\nactive 1.1 1.1\nwaiting 0 2.2 2.2\nwaiting 0 2.3 2.3\nto 2.1\nwaiting 0 3.3 3.3\nto 3.1\nfree\nfree\n",
    },
];

static SECOND: [Row; 16] = [
    Row {
        name: "limit_refuses_block",
        input: "table 2 2 1 9\nbegin\nbegin\nacquire 0.1 0\nacquire 1.1 1\nacquire 0.1 1\nacquire 1.1 0\nstate 1.1\n",
        output: "ok\nkey 0.1\nkey 1.1\ngranted\ngranted\nwaits 1.1 1.0\nrefused 7 LabelsExhausted\nactive 0.1 0.1\n",
    },
    Row {
        name: "retired_then_next",
        input: "table 2 1 9 1\nbegin\nfinish 0.1\nbegin\nbegin\nstate 0.1\n",
        output: "ok\nkey 0.1\nfinished\nkey 1.1\nrefused 6 Full\nrefused 1 Stale\n",
    },
    Row {
        name: "numbers_and_words",
        input: "table 01 1 9 9\nbegin\nacquire 00.01 000\nacquire 0..1 0\nacquire 0.1 -0\nACQUIRE 0.1 0\nowner 0 0\nowner 0\nacquire 0.0 0\n",
        output: "ok\nkey 0.1\ngranted\nmalformed\nmalformed\nmalformed\nmalformed\nowner 0.1\nrefused 1 Stale\n",
    },
    Row {
        name: "line_lengths",
        input: "table 1 1 9 9\nbegin                                                                                                                           \nbegin                                                                                                                            \nbegin                                                                                                                          \r\nbegin                                                                                                                           \r\n#xxxxxxxxxxxxxxxxxxxxxxxxxxxxxxxxxxxxxxxxxxxxxxxxxxxxxxxxxxxxxxxxxxxxxxxxxxxxxxxxxxxxxxxxxxxxxxxxxxxxxxxxxxxxxxxxxxxxxxxxxxxxxxxx\nowner 00000000000000000000\nowner 000000000000000000000\n",
        output: "ok\nkey 0.1\nmalformed\nrefused 6 Full\nmalformed\nmalformed\nfree\nmalformed\n",
    },
    Row {
        name: "transmit_once",
        input: "table 4 4 100 9\nbegin\nbegin\nacquire 0.1 0\nacquire 1.1 1\nacquire 0.1 1\nacquire 1.1 0\nstate 0.1\nstate 1.1\ntransmit 0.1\nstate 0.1\ntransmit 0.1\ntransmit 1.1\n",
        output: "ok\nkey 0.1\nkey 1.1\ngranted\ngranted\nwaits 1.1 1.0\nwaits 0.1 2.1\nwaiting 1 1.0 1.0\nwaiting 0 2.1 2.1\nraised 2.1\nwaiting 1 1.0 2.1\nstill\nstill\n",
    },
    Row {
        name: "transmit_refusals",
        input: "table 1 1 9 9\nbegin\ntransmit 0.1\ntransmit 0.2\n",
        output: "ok\nkey 0.1\nrefused 8 NotWaiting\nrefused 1 Stale\n",
    },
    Row {
        name: "ring_of_four_settles",
        input: "table 5 4 100 9\nbegin\nbegin\nbegin\nbegin\nacquire 0.1 0\nacquire 1.1 1\nacquire 2.1 2\nacquire 3.1 3\nacquire 0.1 1\nacquire 1.1 2\nacquire 2.1 3\nacquire 3.1 0\nsettle\nstate 0.1\nstate 3.1\ntotals\n",
        output: "ok\nkey 0.1\nkey 1.1\nkey 2.1\nkey 3.1\ngranted\ngranted\ngranted\ngranted\nwaits 1.1 1.0\nwaits 2.1 1.1\nwaits 3.1 1.2\nwaits 0.1 2.3\nsettled 6 1\nwaiting 1 1.0 2.3\nconvicted 0 2.3 2.3\ntotals 13 1 0\n",
    },
    Row {
        name: "give_up",
        input: "table 4 4 100 9\nbegin\nbegin\nacquire 0.1 0\nacquire 1.1 1\nacquire 0.1 1\nacquire 1.1 0\ndetect 0.1\ndetect 1.1\ntransmit 0.1\ngive_up 0.1\ngive_up 1.1\nstate 1.1\ndetect 0.1\n",
        output: "ok\nkey 0.1\nkey 1.1\ngranted\ngranted\nwaits 1.1 1.0\nwaits 0.1 2.1\nclear\nclear\nraised 2.1\nrefused 13 Carried\nwithdrawn\nactive 2.1 2.1\nclear\n",
    },
    Row {
        name: "give_up_keeps_places",
        input: "table 4 1 100 9\nbegin\nbegin\nbegin\nbegin\nacquire 0.1 0\nacquire 1.1 0\nacquire 2.1 0\nacquire 3.1 0\ngive_up 2.1\nrelease 0.1 0\nstate 3.1\nstate 2.1\ngive_up 2.1\n",
        output: "ok\nkey 0.1\nkey 1.1\nkey 2.1\nkey 3.1\ngranted\nwaits 0.1 1.1\nwaits 0.1 1.2\nwaits 0.1 1.3\nwithdrawn\nto 1.1\nwaiting 0 2.3 2.3\nactive 1.2 1.2\nrefused 8 NotWaiting\n",
    },
    Row {
        name: "give_up_frees_abort",
        input: "table 3 2 3 9\nbegin\nbegin\nbegin\nacquire 0.1 0\nacquire 1.1 1\nacquire 0.1 1\nacquire 1.1 0\nacquire 2.1 1\ntransmit 0.1\ndetect 1.1\nabort 1.1\nstate 1.1\ndetect 1.1\ntotals\ngive_up 2.1\nabort 1.1\nowner 0\nowner 1\n",
        output: "ok\nkey 0.1\nkey 1.1\nkey 2.1\ngranted\ngranted\nwaits 1.1 1.0\nwaits 0.1 2.1\nwaits 1.1 3.2\nraised 2.1\ndeadlock 2.1\nrefused 7 LabelsExhausted\nconvicted 0 2.1 2.1\nstanding\ntotals 11 1 0\nwithdrawn\naborted\nowner 0.1\nowner 0.1\n",
    },
    Row {
        name: "give_up_under_verdict",
        input: "table 4 4 100 9\nbegin\nbegin\nacquire 0.1 0\nacquire 1.1 1\nacquire 0.1 1\nacquire 1.1 0\ndetect 0.1\ndetect 1.1\ntransmit 0.1\ndetect 1.1\ndetect 1.1\ngive_up 1.1\n",
        output: "ok\nkey 0.1\nkey 1.1\ngranted\ngranted\nwaits 1.1 1.0\nwaits 0.1 2.1\nclear\nclear\nraised 2.1\ndeadlock 2.1\nstanding\nrefused 14 UnderVerdict\n",
    },
    Row {
        name: "the_second_that_asks_waits",
        input: "table 4 4 100 9\nbegin\nbegin\nacquire 0.1 0\nacquire 1.1 1\nacquire 0.1 1\nstate 0.1\nacquire 0.1 2\n",
        output: "ok\nkey 0.1\nkey 1.1\ngranted\ngranted\nwaits 1.1 1.0\nwaiting 1 1.0 1.0\nrefused 3 Waiting\n",
    },
    Row {
        name: "the_convicted_one_gives_way",
        input: "table 4 4 100 9\nbegin\nacquire 0.1 0\nbegin\nacquire 1.1 1\nacquire 0.1 1\nacquire 1.1 0\ndetect 1.1\nabort 1.1\ntransmit 0.1\ndetect 1.1\nfinish 1.1\nabort 1.1\nowner 1\nstate 0.1\nstate 1.1\n",
        output: "ok\nkey 0.1\ngranted\nkey 1.1\ngranted\nwaits 1.1 1.0\nwaits 0.1 2.1\nclear\nrefused 9 NoVerdict\nraised 2.1\ndeadlock 2.1\nrefused 3 Waiting\naborted\nowner 0.1\nactive 1.0 2.1\nrefused 1 Stale\n",
    },
    Row {
        name: "a_finish_hands_over",
        input: "table 4 2 100 9\nbegin\nbegin\nbegin\nbegin\nacquire 0.1 0\nacquire 0.1 1\nacquire 1.1 1\nacquire 2.1 0\nacquire 3.1 0\nfinish 0.1\nowner 0\nowner 1\nstate 3.1\nfinish 0.1\n",
        output: "ok\nkey 0.1\nkey 1.1\nkey 2.1\nkey 3.1\ngranted\ngranted\nwaits 0.1 1.1\nwaits 0.1 1.2\nwaits 0.1 1.3\nfinished\nowner 2.1\nowner 1.1\nwaiting 0 2.3 2.3\nrefused 1 Stale\n",
    },
    Row {
        name: "ranges_of_both_headers",
        input: "table 4097 1 1 1\ntable2 65537 1 1 1\ntable2 4097 1 1 1\ntable2 1 1 1 1\ntable 1 1 1 1\n",
        output: "refused 11 BadConfig\nrefused 11 BadConfig\nok\ntable stands\ntable stands\n",
    },
    Row {
        name: "greatest_table",
        input: "table2 65536 65536 17592186044415 9\nbegin\nstate 0.1\nacquire 65535.1 0\n",
        output: "ok\nkey 0.1\nactive 0.0 0.0\nrefused 1 Stale\n",
    },
];

/// All scripts, in two parts. A function that names one array of all of them takes twice as long to prove.
pub fn all_rows() -> [&'static [Row]; 2] {
    [&FIRST, &SECOND]
}
