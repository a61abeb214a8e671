//! The sessions that the tests play.

use crate::{Answer, Reason};
use codeword::Function;

/// Characters, and then so many letters `A`.
pub(crate) type Piece = (&'static [u8], usize);

/// A page: its capcode, its function, its text.
pub(crate) type Page<'a> = (u32, Function, &'a [u8]);

/// A session: the cells of the pool, what is heard, what is answered, the pages, and the counts of the report in its order.
pub(crate) struct Row {
    pub(crate) cells: u32,
    pub(crate) heard: &'static [Piece],
    pub(crate) answers: &'static [Answer],
    pub(crate) pages: &'static [Page<'static>],
    pub(crate) counts: [u32; 10],
}

/// The sessions.
pub(crate) const ROWS: [Row; 19] = [
    Row {
        cells: 64,
        heard: &[(b"\r\x1BPG1\r\x025551234\rHELLO\r\x032?<\r\x04\r", 0)],
        answers: &[Answer::Id, Answer::Go, Answer::Ack, Answer::End],
        pages: &[(8, Function::Alpha, b"HELLO")],
        counts: [1, 0, 0, 0, 0, 0, 0, 0, 0, 0],
    },
    Row {
        cells: 64,
        heard: &[(
            b"\r\x1BPG1\r\x025551234\rHELLO\r\x032?=\r\x025551234\rHELLO\r\x032?<\r\x04\r",
            0,
        )],
        answers: &[
            Answer::Id,
            Answer::Go,
            Answer::Nak,
            Answer::Ack,
            Answer::End,
        ],
        pages: &[(8, Function::Alpha, b"HELLO")],
        counts: [1, 0, 1, 0, 0, 0, 0, 0, 0, 0],
    },
    Row {
        cells: 64,
        heard: &[(b"\r\x1BPG1\r\x02999\rX\r\x03122\r\x04\r", 0)],
        answers: &[
            Answer::Id,
            Answer::Go,
            Answer::Rs(Reason::Unknown),
            Answer::End,
        ],
        pages: &[],
        counts: [0, 0, 0, 0, 0, 0, 1, 0, 0, 0],
    },
    Row {
        cells: 64,
        heard: &[(b"\r\x1BPG1\r\x02HELLO\r\x03186\r\x04\r", 0)],
        answers: &[
            Answer::Id,
            Answer::Go,
            Answer::Rs(Reason::Form),
            Answer::End,
        ],
        pages: &[],
        counts: [0, 0, 0, 0, 0, 1, 0, 0, 0, 0],
    },
    Row {
        cells: 64,
        heard: &[(
            b"\r\x1BPG1\r\x025550002\r12 \r\x03203\r\x025550002\r12\r\x031>3\r",
            0,
        )],
        answers: &[
            Answer::Id,
            Answer::Go,
            Answer::Rs(Reason::Text),
            Answer::Ack,
        ],
        pages: &[(9, Function::Numeric, b"12")],
        counts: [1, 0, 0, 0, 0, 0, 0, 1, 0, 0],
    },
    Row {
        cells: 64,
        heard: &[(b"\r\x1BPG1\r\x025550002\r\r\x03180\r", 0)],
        answers: &[Answer::Id, Answer::Go, Answer::Ack],
        pages: &[(9, Function::Numeric, b"")],
        counts: [1, 0, 0, 0, 0, 0, 0, 0, 0, 0],
    },
    Row {
        cells: 64,
        heard: &[
            (b"\r\x1BPG1\r\x025551234\r", 241),
            (b"\r\x03>;9\r\x025551234\r", 242),
            (b"\r\x03>?:\r", 0),
        ],
        answers: &[
            Answer::Id,
            Answer::Go,
            Answer::Ack,
            Answer::Rs(Reason::Body),
        ],
        pages: &[(8, Function::Alpha, &[b'A'; 241])],
        counts: [1, 0, 0, 1, 0, 0, 0, 0, 0, 0],
    },
    Row {
        cells: 64,
        heard: &[
            (b"\r\x1BPG1\r\x02", 250),
            (b"\x1F?9;\r\x02", 250),
            (b"\x1F?9;\r\x02", 250),
            (b"\x1F?9;\r\x02", 250),
            (b"\x1F?9;\r\x02", 250),
            (b"\x1F?9;\r\x02", 250),
            (b"\x1F?9;\r\x02", 250),
            (b"\x1F?9;\r\x02", 250),
            (b"\x1F?9;\r\x02", 250),
            (b"\x1F?9;\r\x02999\rX\r\x03122\r", 0),
        ],
        answers: &[
            Answer::Id,
            Answer::Go,
            Answer::Ack,
            Answer::Ack,
            Answer::Ack,
            Answer::Ack,
            Answer::Ack,
            Answer::Ack,
            Answer::Ack,
            Answer::Ack,
            Answer::Rs(Reason::Content),
            Answer::Rs(Reason::Unknown),
        ],
        pages: &[],
        counts: [0, 8, 0, 0, 1, 0, 1, 0, 0, 0],
    },
    Row {
        cells: 64,
        heard: &[(
            b"\r\x1BPG1\r\x025551234\rA\x1A\x1F1?2\r\x02MB\r\x030:1\r",
            0,
        )],
        answers: &[Answer::Id, Answer::Go, Answer::Ack, Answer::Ack],
        pages: &[(8, Function::Alpha, b"A\rB")],
        counts: [1, 1, 0, 0, 0, 0, 0, 0, 0, 0],
    },
    Row {
        cells: 2,
        heard: &[
            (b"\r\x1BPG1\r\x025551234\r", 64),
            (b"\r\x031<8\r\x025551234\rA\r\x031<9\r", 0),
        ],
        answers: &[
            Answer::Id,
            Answer::Go,
            Answer::Ack,
            Answer::Rs(Reason::Room),
        ],
        pages: &[(8, Function::Alpha, &[b'A'; 64])],
        counts: [1, 0, 0, 0, 0, 0, 0, 0, 1, 0],
    },
    Row {
        cells: 64,
        heard: &[
            (b"\r\x1BPG1\r\x025551234\r", 242),
            (b"\x1F?09\r\x02", 158),
            (b"\r\x03830\r", 0),
        ],
        answers: &[Answer::Id, Answer::Go, Answer::Ack, Answer::Ack],
        pages: &[(8, Function::Alpha, &[b'A'; 400])],
        counts: [1, 1, 0, 0, 0, 0, 0, 0, 0, 0],
    },
    Row {
        cells: 64,
        heard: &[
            (b"\r\x1BPG1\r\x025551234\r", 242),
            (b"\x1F?09\r\x02", 159),
            (b"\r\x03871\r", 0),
        ],
        answers: &[Answer::Id, Answer::Go, Answer::Ack, Answer::Ack],
        pages: &[(8, Function::Alpha, &[b'A'; 401])],
        counts: [1, 1, 0, 0, 0, 0, 0, 0, 0, 0],
    },
    Row {
        cells: 64,
        heard: &[
            (b"\r\x1BPG1\r\x025551234\r", 242),
            (b"\x1F?09\r\x02", 250),
            (b"\x1F?9;\r\x02", 250),
            (b"\x1F?9;\r\x02", 250),
            (b"\x1F?9;\r\x02", 8),
            (b"\r\x0321:\r", 0),
        ],
        answers: &[
            Answer::Id,
            Answer::Go,
            Answer::Ack,
            Answer::Ack,
            Answer::Ack,
            Answer::Ack,
            Answer::Ack,
        ],
        pages: &[(8, Function::Alpha, &[b'A'; 1000])],
        counts: [1, 4, 0, 0, 0, 0, 0, 0, 0, 0],
    },
    Row {
        cells: 64,
        heard: &[
            (b"\r\x1BPG1\r\x025551234\r", 242),
            (b"\x1F?09\r\x02", 250),
            (b"\x1F?9;\r\x02", 250),
            (b"\x1F?9;\r\x02", 250),
            (b"\x1F?9;\r\x02", 9),
            (b"\r\x0325;\r", 0),
        ],
        answers: &[
            Answer::Id,
            Answer::Go,
            Answer::Ack,
            Answer::Ack,
            Answer::Ack,
            Answer::Ack,
            Answer::Rs(Reason::Text),
        ],
        pages: &[],
        counts: [0, 4, 0, 0, 0, 0, 0, 1, 0, 0],
    },
    Row {
        cells: 64,
        heard: &[(
            b"\r\x1BPG1\rx\x02junk\x025551234\rHELLO\r\x032?<\r\x04y\x04\r",
            0,
        )],
        answers: &[Answer::Id, Answer::Go, Answer::Ack, Answer::End],
        pages: &[(8, Function::Alpha, b"HELLO")],
        counts: [1, 0, 0, 0, 0, 0, 0, 0, 0, 0],
    },
    Row {
        cells: 64,
        heard: &[(b"\r\x1BPG1\r\x02900\rA\r\x030?9\r\x04\r", 0)],
        answers: &[Answer::Id, Answer::Go, Answer::Ack, Answer::End],
        pages: &[
            (8, Function::Alpha, b"A"),
            (15, Function::Alpha, b"A"),
            (2000, Function::Alpha, b"A"),
        ],
        counts: [3, 0, 0, 0, 0, 0, 0, 0, 0, 0],
    },
    Row {
        cells: 2,
        heard: &[(
            b"\r\x1BPG1\r\x02900\rA\r\x030?9\r\x025551234\rA\r\x031<9\r\x04\r",
            0,
        )],
        answers: &[
            Answer::Id,
            Answer::Go,
            Answer::Rs(Reason::Room),
            Answer::Ack,
            Answer::End,
        ],
        pages: &[(8, Function::Alpha, b"A")],
        counts: [1, 0, 0, 0, 0, 0, 0, 0, 1, 0],
    },
    Row {
        cells: 3,
        heard: &[(b"\r\x1BPG1\r\x02900\rA\r\x030?9\r\x02900\rA\r\x030?9\r", 0)],
        answers: &[
            Answer::Id,
            Answer::Go,
            Answer::Ack,
            Answer::Rs(Reason::Room),
        ],
        pages: &[
            (8, Function::Alpha, b"A"),
            (15, Function::Alpha, b"A"),
            (2000, Function::Alpha, b"A"),
        ],
        counts: [3, 0, 0, 0, 0, 0, 0, 0, 1, 0],
    },
    Row {
        cells: 64,
        heard: &[(b"a\rb\rc\rd\r\r", 0)],
        answers: &[Answer::Nak, Answer::Nak, Answer::End],
        pages: &[],
        counts: [0, 0, 0, 0, 0, 0, 0, 0, 0, 3],
    },
];

/// Sessions for the plain program: junk, dropped bodies, wrong trailers, refusals, and transactions that go on.
pub(crate) const SESSIONS: [&[Piece]; 8] = [
    &[(
        b"\r\x1BPG1\rjunk\x04x\x02drop\x025551234\rHELLO\r\x032?<\r\x04\r\r",
        0,
    )],
    &[(
        b"\n\r\x1BPG1secret\n\r\x02M\rB\r\x03\r\x0215\r\r\x03085\r\x0215\r\r\x03085x",
        0,
    )],
    &[(
        b"\x1BPG1\r\x025551234\rA\x1A\x1F1?2\r\x02M\rB\r\x1701=\r\x02M\x03051\r\x04\r",
        0,
    )],
    &[(
        b"x\ry\r\x1BPG1\r\x02\x03005\r\x02999\rX\r\x03122\r\x04\x04\r",
        0,
    )],
    &[(b"x\ry\r\x1BPG1x\r\x1BPG1\r", 0)],
    &[
        (b"\x1BPG1\r\x025551234\r", 242),
        (b"\x1F?09\r\x02", 158),
        (b"\r\x03830\r", 0),
    ],
    &[
        (b"\x1BPG1\r\x02", 250),
        (b"\x1F?9;\r\x02", 250),
        (b"\x1F?9;\r\x02", 250),
        (b"\x1F?9;\r\x02", 250),
        (b"\x1F?9;\r\x02", 250),
        (b"\x1F?9;\r\x02", 250),
        (b"\x1F?9;\r\x02", 250),
        (b"\x1F?9;\r\x02", 250),
        (b"\x1F?9;\r\x02", 200),
        (b"\x1F2>9\r\x02A\x1F062\r", 0),
    ],
    &[
        (b"\x1BPG1\r\x025551234\r", 242),
        (b"\r\x03>?:\r\x025551234\r", 64),
        (b"\r\x031<8\r\x025551234\rA\r\x031<9\r\x04\r", 0),
    ],
];
