//! The runs that were worked by hand, to the last byte.
use crate::{DEAREST, DEFAULTS, Frame, Keys, Run};
use cq_trial_kit::{LOG, TRACE};

/// What output 0 sends of two cells in two slots after one another.
const SENT: &[Frame] = &[(0, 0, 0, 60), (0, 512, 0, 60)];

/// The capture of these.
pub const SENT_CAPTURE: &[u8] = &[
    0x4d, 0x3c, 0xb2, 0xa1, 2, 0, 4, 0, 0, 0, 0, 0, 0, 0, 0, 0, 0, 0, 4, 0, 1, 0, 0, 0, //
    0, 0, 0, 0, 0, 0, 0, 0, 60, 0, 0, 0, 60, 0, 0, 0, //
    2, 0, 0, 0, 0, 0, 2, 0, 0, 0, 0, 0xaa, 0x88, 0xb5, //
    0, 0, 0, 0, 0, 0, 0, 0, 0, 0, 0, 0, 0, 0, 0, 0, 0, 0, 0, 0, 0, 0, 0, //
    0, 0, 0, 0, 0, 0, 0, 0, 0, 0, 0, 0, 0, 0, 0, 0, 0, 0, 0, 0, 0, 0, 0, //
    0, 0, 0, 0, 0, 2, 0, 0, 60, 0, 0, 0, 60, 0, 0, 0, //
    2, 0, 0, 0, 0, 0, 2, 0, 0, 0, 0, 0xaa, 0x88, 0xb5, //
    0, 0, 0, 0, 0, 0, 0, 0, 0, 0, 0, 0, 0, 0, 0, 0, 0, 0, 0, 0, 0, 0, 0, //
    0, 0, 0, 0, 0, 0, 0, 0, 0, 0, 0, 0, 0, 0, 0, 0, 0, 0, 0, 0, 0, 0, 0,
];

/// Two inputs with a cell for one output.
pub const TWO_FOR_ONE: Run = Run {
    shows: "two inputs with a cell for one output: the lesser goes first",
    keys: DEFAULTS,
    inputs: &[&[(0, 0, 0, 60)], &[(0, 0, 0, 60)]],
    outputs: &[SENT, &[]],
    trace: TRACE,
    log: LOG,
    report: "slots 2\nproposals 3\nmost 2\n\
        input 0 cells 1 longest 1 slack 0\n\
        input 1 cells 1 longest 1 slack 0\n\
        output 0 cells 2 idle 0 wait 1\n\
        output 1 cells 0 idle 2 wait -\n",
};

/// Three inputs, with cells for two outputs.
pub const THREE_INPUTS: Run = Run {
    shows: "the third input waits for output 0, and its later cell for output 1 goes ahead",
    keys: DEFAULTS,
    inputs: &[
        &[(0, 0, 0, 60)],
        &[(0, 0, 0, 60)],
        &[(0, 0, 0, 60), (0, 512, 1, 60)],
    ],
    outputs: &[
        &[(0, 0, 0, 60), (0, 512, 0, 60), (0, 1024, 0, 60)],
        &[(0, 512, 1, 60)],
        &[],
    ],
    trace: "0 0 0 0 0\n1 0 1 0 0\n1 1 2 1 0\n2 0 2 0 0\n",
    log: "0 1 0 0 0 0\n0 2 1 0 0 0\n1 1 2 1 1 0\n1 2 2 0 0 0\n",
    report: "slots 3\nproposals 7\nmost 3\n\
        input 0 cells 1 longest 1 slack 0\n\
        input 1 cells 1 longest 1 slack 0\n\
        input 2 cells 2 longest 2 slack 0\n\
        output 0 cells 3 idle 0 wait 2\n\
        output 1 cells 1 idle 2 wait 0\n\
        output 2 cells 0 idle 3 wait -\n",
};

/// Runs by defaults.
pub const RUNS: &[Run] = &[TWO_FOR_ONE, THREE_INPUTS, NO_PACKET];

/// One port, at which nothing comes.
const NO_PACKET: Run = Run {
    shows: "no packet at all",
    keys: DEFAULTS,
    inputs: &[&[]],
    outputs: &[&[]],
    trace: "",
    log: "",
    report: "slots 0\nproposals 0\nmost 0\n\
        input 0 cells 0 longest 0 slack -\n\
        output 0 cells 0 idle 0 wait -\n",
};

/// One cell fills output 0.
const FULL_WITH_ONE: Keys = Keys {
    port: "limit = 1\n",
    ..DEFAULTS
};

/// One of two inputs fills output 0.
const ONE_REFUSED: Run = Run {
    shows: "the lesser input fills the output, and the packet of the other one is refused",
    keys: FULL_WITH_ONE,
    inputs: &[&[(0, 0, 0, 60)], &[(0, 0, 0, 60)]],
    outputs: &[&[(0, 0, 0, 60)], &[]],
    trace: "0 0 0 0 0\n",
    log: "0 1 0 0 0 0\n",
    report: "slots 1\nproposals 1\nmost 1\n\
        input 0 cells 1 longest 1 slack 0\n\
        input 1 cells 0 longest 0 slack -\n\
        output 0 cells 1 idle 0 wait 0\n\
        output 1 cells 0 idle 1 wait -\n\
        limit 0 refused 1 cells 1\n",
};

/// Runs by keys of their own. In the first three output 0 refuses packets.
pub const RUNS_BY_KEYS: &[Run] = &[
    ONE_REFUSED,
    Run {
        shows: "the second cell of a refused packet is refused too, though the output is empty by then",
        inputs: &[&[(0, 0, 0, 60)], &[(0, 0, 0, 128)]],
        report: "slots 1\nproposals 1\nmost 1\n\
            input 0 cells 1 longest 1 slack 0\n\
            input 1 cells 0 longest 0 slack -\n\
            output 0 cells 1 idle 0 wait 0\n\
            output 1 cells 0 idle 1 wait -\n\
            limit 0 refused 1 cells 2\n",
        ..ONE_REFUSED
    },
    Run {
        shows: "the second cell of an admitted packet fills the output too, and a third packet finds room",
        keys: FULL_WITH_ONE,
        inputs: &[
            &[(0, 0, 0, 128)],
            &[(0, 0, 0, 60), (0, 512, 0, 60), (0, 1024, 0, 60)],
        ],
        outputs: &[&[(0, 512, 0, 128), (0, 1024, 0, 60)], &[]],
        trace: "0 0 0 0 0\n1 0 0 0 1\n2 0 1 2 0\n",
        log: "0 1 0 0 0 0\n1 1 0 0 0 1\n2 1 1 0 2 0\n",
        report: "slots 3\nproposals 3\nmost 1\n\
            input 0 cells 2 longest 1 slack 0\n\
            input 1 cells 1 longest 1 slack 0\n\
            output 0 cells 3 idle 0 wait 0\n\
            output 1 cells 0 idle 3 wait -\n\
            limit 0 refused 2 cells 2\n",
    },
    Run {
        shows: "ranks are equal, and the cell of the later input goes first, since it came a slot earlier",
        keys: Keys {
            last: "[[class]]\n[[class]]\ncost = 2\n[[rule]]\ninput = 1\nclass = 1\n",
            ..DEAREST
        },
        inputs: &[&[(0, 0, 0, 60), (0, 512, 0, 60)], &[(0, 0, 0, 60)]],
        outputs: &[&[(0, 0, 0, 60), (0, 512, 0, 60), (0, 1024, 0, 60)], &[]],
        trace: "0 0 0 0 0\n1 0 1 0 0\n2 0 0 1 0\n",
        log: "0 1 0 0 0 0\n0 2 1 0 0 0\n1 1 0 0 1 0\n",
        report: "slots 3\nproposals 4\nmost 2\n\
            input 0 cells 2 longest 1 slack 0\n\
            input 1 cells 1 longest 1 slack 0\n\
            output 0 cells 3 idle 0 wait 1\n\
            output 1 cells 0 idle 3 wait -\n",
    },
    Run {
        shows: "all cells of the lesser level go first at a fair output",
        keys: Keys {
            version: 2,
            last: "[[class]]\nlevel = 1\n[[class]]\nlevel = 0\n[[rule]]\ninput = 1\nclass = 1\n",
            ..DEAREST
        },
        inputs: &[
            &[(0, 0, 0, 60), (0, 512, 0, 60)],
            &[(0, 0, 0, 60), (0, 512, 0, 60)],
        ],
        outputs: &[
            &[
                (0, 0, 0, 60),
                (0, 512, 0, 60),
                (0, 1024, 0, 60),
                (0, 1536, 0, 60),
            ],
            &[],
        ],
        trace: "0 0 1 0 0\n1 0 1 1 0\n2 0 0 0 0\n3 0 0 1 0\n",
        log: "0 1 1 0 0 0\n0 2 0 0 0 0\n1 1 1 0 1 0\n1 2 0 0 1 0\n",
        report: "slots 4\nproposals 6\nmost 2\n\
            input 0 cells 2 longest 1 slack 0\n\
            input 1 cells 2 longest 1 slack 0\n\
            output 0 cells 4 idle 0 wait 2\n\
            output 1 cells 0 idle 4 wait -\n",
    },
    Run {
        shows: "an idle slot begins the ranks of a fair output anew",
        keys: DEAREST,
        inputs: &[&[(0, 0, 0, 60), (0, 1024, 0, 60)]],
        outputs: &[&[(0, 0, 0, 60), (0, 1024, 0, 60)]],
        trace: "0 0 0 0 0\n2 0 0 1 0\n",
        log: "0 1 0 0 0 0\n2 1 0 0 1 0\n",
        report: "slots 3\nproposals 2\nmost 1\n\
            input 0 cells 2 longest 1 slack 0\n\
            output 0 cells 2 idle 1 wait 0\n",
    },
    Run {
        shows: "an hour of slots of a nanosecond, in which nothing comes and nothing waits, and which begin a fair \
            output's ranks anew",
        keys: Keys {
            first: "slot_ns = 1\n",
            ..DEAREST
        },
        inputs: &[&[(0, 0, 0, 60), (3600, 0, 0, 60)]],
        outputs: &[&[(0, 0, 0, 60), (3600, 0, 0, 60)]],
        trace: "0 0 0 0 0\n3600000000000 0 0 1 0\n",
        log: "0 1 0 0 0 0\n3600000000000 1 0 0 1 0\n",
        report: "slots 3600000000001\nproposals 2\nmost 1\n\
            input 0 cells 2 longest 1 slack 0\n\
            output 0 cells 2 idle 3599999999999 wait 0\n",
    },
    Run {
        shows: "seconds are written modulo 2^32",
        keys: Keys {
            first: "slot_ns = 1000000000\n",
            ..DEFAULTS
        },
        inputs: &[&[(4_294_967_295, 0, 0, 60), (4_294_967_295, 0, 0, 60)]],
        outputs: &[&[(4_294_967_295, 0, 0, 60), (0, 0, 0, 60)]],
        trace: "0 0 0 0 0\n1 0 0 1 0\n",
        log: "0 1 0 0 0 0\n1 1 0 0 1 0\n",
        report: "slots 2\nproposals 2\nmost 1\n\
            input 0 cells 2 longest 1 slack 0\n\
            output 0 cells 2 idle 0 wait 0\n",
    },
    Run {
        shows: "a capture as long as the limit",
        keys: Keys {
            first: "limit_bytes = 24\n",
            ..DEFAULTS
        },
        ..NO_PACKET
    },
];
