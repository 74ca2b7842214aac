// What the lines of a text have said so far. The octets of all fields stand one behind the other in one store, in the order of the lines.
use envelope_script::Field;
use text::append;

// What the first line says that the text is; nothing before it, and no more once a line has another form.
#[derive(Clone, Copy, PartialEq, Eq)]
pub(crate) enum Kind {
    Empty,
    Init,
    Resp,
    Bad,
}

// The fields of an envelope in their order: first the mechanisms of an Init or the state of a Resp, second the flags of an Init or the mechanism of a Resp.
#[derive(Clone, Copy, PartialEq, Eq, PartialOrd, Ord)]
pub(crate) enum Place {
    First,
    Second,
    Token,
    Checksum,
}

// A field's octets in the store.
#[derive(Clone, Copy)]
pub(crate) struct Span {
    pub(crate) from: usize,
    pub(crate) to: usize,
}

// What is to be written, the last field, the octets used of the store, and the fields: of an Init `count` mechanisms, the first `list` octets of the store,
// and its flags; of a Resp its state and its mechanism; of both the token and the checksum. The mechanisms' sizes stand in a lent slice, with their count here:
// the project has no heap.
#[derive(Clone, Copy)]
pub(crate) struct Draft {
    pub(crate) kind: Kind,
    pub(crate) last: Option<Place>,
    pub(crate) used: usize,
    pub(crate) count: usize,
    pub(crate) list: usize,
    pub(crate) state: Option<u8>,
    pub(crate) second: Option<Span>,
    pub(crate) token: Option<Span>,
    pub(crate) checksum: Option<Span>,
}

impl Draft {
    // No line yet.
    pub(crate) const EMPTY: Draft = Draft {
        kind: Kind::Empty,
        last: None,
        used: 0,
        count: 0,
        list: 0,
        state: None,
        second: None,
        token: None,
        checksum: None,
    };
}

pub(crate) fn bad(d: Draft) -> Draft {
    Draft {
        kind: Kind::Bad,
        ..d
    }
}

// The first line.
pub(crate) fn started(d: Draft, kind: Kind) -> Draft {
    if d.kind != Kind::Empty {
        return bad(d);
    }
    Draft { kind, ..d }
}

// The state, the first field of a Resp.
pub(crate) fn with_state(d: Draft, n: u32) -> Draft {
    if d.kind != Kind::Resp || d.last.is_some() || 255 < n {
        return bad(d);
    }
    Draft {
        last: Some(Place::First),
        state: Some(n as u8),
        ..d
    }
}

// The place of a field among those of an envelope, where it has one.
fn place_of(kind: Kind, field: Field) -> Option<Place> {
    match (kind, field) {
        (Kind::Init, Field::Mechanism) => Some(Place::First),
        (Kind::Init, Field::Flags) => Some(Place::Second),
        (Kind::Resp, Field::Mechanism) => Some(Place::Second),
        (Kind::Init | Kind::Resp, Field::Token) => Some(Place::Token),
        (Kind::Init | Kind::Resp, Field::Checksum) => Some(Place::Checksum),
        _ => None,
    }
}

// Whether a field may follow: it stands behind those before it, or is one more mechanism of an Init.
fn follows(d: Draft, place: Place) -> bool {
    let Some(last) = d.last else {
        return true;
    };
    last < place || d.kind == Kind::Init && last == Place::First && place == Place::First
}

// One mechanism more of an Init, whose octets end in the store at `to`.
fn with_mechanism(d: Draft, n: usize, to: usize, sizes: &mut [usize]) -> Draft {
    let Some(size) = sizes.get_mut(d.count) else {
        return bad(d);
    };
    *size = n;
    Draft {
        count: d.count + 1,
        list: to,
        ..d
    }
}

// A field's octets, which are put into the store.
pub(crate) fn with_octets(
    d: Draft,
    field: Field,
    v: &[u8],
    store: &mut [u8],
    sizes: &mut [usize],
) -> Draft {
    let Some(place) = place_of(d.kind, field) else {
        return bad(d);
    };
    if !follows(d, place) {
        return bad(d);
    }
    let from = d.used;
    let to = append(store, from, v);
    let span = Some(Span { from, to });
    let next = Draft {
        last: Some(place),
        used: to,
        ..d
    };
    match place {
        Place::First => with_mechanism(next, v.len(), to, sizes),
        Place::Second => Draft {
            second: span,
            ..next
        },
        Place::Token => Draft {
            token: span,
            ..next
        },
        Place::Checksum => Draft {
            checksum: span,
            ..next
        },
    }
}
