// The envelope written into a lent buffer, from its first octet on. A field comes with whether it is there.
// A flag and octets stay two parameters: a promise that may not change needs it, that no parameter's type gets narrower.
#![tactic(auto)]

ghost use Rattle.std.specs.Prelude.{◌≡◌, true, ◌∷◌, [], ◌+◌, ◌≤◌, length, eqb};
ghost use Rattle.std.proofs.Math.Option.{some};
ghost use Rattle.refusal.specs.Refusals.{refusal_number};
ghost use Rattle.put.specs.Put.{Written};
ghost use Rattle.der.specs.Grammar.{field_octets};
ghost use Rattle.der.specs.Holder.{capped};
ghost use Rattle.der_put.specs.Size.{element_size, field_size, given};
ghost use Rattle.envelope.specs.Envelope.{encoded, identifiers, tail_octets, fine_state};
ghost use Rattle.envelope_write.specs.Given.{sum_of, split_by, init_given, resp_given, identifiers_size, tail_size, init_size, resp_size, IdentifiersRoom, ListRoom, TailRoom, mechanisms_refusal, Mechanisms, InitSized, InitRoom, RespSized, RespRoom};
ghost use Rattle.envelope_write.specs.Writing.{told, storing, storing_init};

use der_put::{cap, element_size, field_size, put_element, put_field, put_head};
use refusal::Refusal;

// Whether sizes sum to a total.
fn sums_to(sizes: &[usize], total: usize) -> bool
    ensures { result ≡ eqb total (sum_of sizes.now) }
{
    let mut left = total;
    for size in sizes {
        if left < *size {
            return false;
        }
        left -= *size;
    }
    left == 0
}

// n octets with an element of m octets behind them, capped.
fn with_element(n: usize, m: usize) -> usize
    requires { n ≤ 65536 }
    ensures { result ≡ capped (n + element_size m) }
{
    if 65535 < m {
        return 65536;
    }
    cap(n + element_size(m))
}

// How many octets identifiers of these sizes have, capped.
fn identifiers_size(sizes: &[usize]) -> usize
    ensures { result ≡ capped (identifiers_size sizes.now) }
{
    let mut total: usize = 0;
    for size in sizes {
        total = with_element(total, *size);
    }
    total
}

// How many octets the three fields behind the first have, capped.
fn tail_size(
    named: bool,
    second: usize,
    carried: bool,
    token: usize,
    checked: bool,
    checksum: usize,
) -> usize
    ensures { result ≡ capped (tail_size named second carried token checked checksum) }
{
    let second_field = field_size(named, second);
    let token_field = field_size(carried, token);
    let checksum_field = field_size(checked, checksum);
    cap(second_field + (token_field + checksum_field))
}

// Identifiers, each as an element; `sizes` cuts `octets` into them.
fn put_identifiers(d: &mut [u8], at: usize, sizes: &[usize], octets: &[u8]) -> usize
    requires { IdentifiersRoom sizes.now octets.now d.old at }
    ensures { Written d.old at (identifiers_size sizes.now)
        (identifiers (split_by sizes.now octets.now)) d.new result }
{
    if sizes.len() == 0 {
        return at;
    }
    let size = sizes[0];
    let next = put_element(d, at, 0x06, &octets[..size]);
    put_identifiers(d, next, &sizes[1..], &octets[size..])
}

// The list of mechanisms; `size` is that of its identifiers.
fn put_list(d: &mut [u8], at: usize, sizes: &[usize], octets: &[u8], size: usize) -> usize
    requires { ListRoom sizes.now octets.now d.old at size }
    ensures { Written d.old at (field_size true size)
        (field_octets 0xA0 0x30 (some (identifiers (split_by sizes.now octets.now)))) d.new result }
{
    let inner = element_size(size);
    let sequence_at = put_head(d, at, 0xA0, inner);
    let identifiers_at = put_head(d, sequence_at, 0x30, size);
    put_identifiers(d, identifiers_at, sizes, octets)
}

// The three fields behind the first; the second has an element with the tag `inner` in it.
fn put_tail(
    d: &mut [u8],
    at: usize,
    inner: u8,
    named: bool,
    second: &[u8],
    carried: bool,
    token: &[u8],
    checked: bool,
    checksum: &[u8],
) -> usize
    requires { TailRoom d.old at (tail_size named (length second.now) carried (length token.now) checked (length checksum.now)) }
    ensures { Written d.old at
        (tail_size named (length second.now) carried (length token.now) checked (length checksum.now))
        (tail_octets inner (given named second.now) (given carried token.now) (given checked checksum.now))
        d.new result }
{
    let token_at = put_field(d, at, 0xA1, inner, named, second);
    let checksum_at = put_field(d, token_at, 0xA2, 0x04, carried, token);
    put_field(d, checksum_at, 0xA3, 0x04, checked, checksum)
}

// An Init that has room; `list` are the octets of its identifiers, `inner` those of its fields.
fn put_init(
    d: &mut [u8],
    list: usize,
    inner: usize,
    sizes: &[usize],
    octets: &[u8],
    flagged: bool,
    flags: &[u8],
    carried: bool,
    token: &[u8],
    checked: bool,
    checksum: &[u8],
) -> usize
    requires { InitRoom sizes.now octets.now d.old list inner
        (tail_size flagged (length flags.now) carried (length token.now) checked (length checksum.now)) }
    ensures { Written d.old 0 (init_size inner)
        (encoded (init_given sizes.now octets.now flagged flags.now carried token.now checked
        checksum.now)) d.new result }
{
    let spnego = [0x2B, 0x06, 0x01, 0x05, 0x05, 0x02];
    let sequence = element_size(inner);
    let wrapped = 8 + element_size(sequence);
    let spnego_at = put_head(d, 0, 0x60, wrapped);
    let init_at = put_element(d, spnego_at, 0x06, &spnego);
    let sequence_at = put_head(d, init_at, 0xA0, sequence);
    let list_at = put_head(d, sequence_at, 0x30, inner);
    let tail_at = put_list(d, list_at, sizes, octets, list);
    put_tail(
        d, tail_at, 0x03, flagged, flags, carried, token, checked, checksum,
    )
}

// Writes an Init whose mechanisms pass; `list` and `inner` as they are, or too long.
fn store_init(
    d: &mut [u8],
    list: usize,
    inner: usize,
    sizes: &[usize],
    octets: &[u8],
    flagged: bool,
    flags: &[u8],
    carried: bool,
    token: &[u8],
    checked: bool,
    checksum: &[u8],
) -> Result<usize, Refusal>
    requires { InitSized sizes.now octets.now list inner
        (tail_size flagged (length flags.now) carried (length token.now) checked (length checksum.now)) }
    ensures { told result d.new ≡ storing d.old
        (init_given sizes.now octets.now flagged flags.now carried token.now checked
        checksum.now) }
{
    let all = element_size(8 + element_size(element_size(inner)));
    if 65535 < all {
        return Err(Refusal::TooLong);
    }
    if d.len() < all {
        return Err(Refusal::Room);
    }
    Ok(put_init(
        d, list, inner, sizes, octets, flagged, flags, carried, token, checked, checksum,
    ))
}

// Writes an Init whose mechanisms pass.
fn size_init(
    d: &mut [u8],
    sizes: &[usize],
    octets: &[u8],
    flagged: bool,
    flags: &[u8],
    carried: bool,
    token: &[u8],
    checked: bool,
    checksum: &[u8],
) -> Result<usize, Refusal>
    requires { Mechanisms sizes.now octets.now }
    ensures { told result d.new ≡ storing d.old
        (init_given sizes.now octets.now flagged flags.now carried token.now checked
        checksum.now) }
{
    let list = identifiers_size(sizes);
    let tail = tail_size(
        flagged,
        flags.len(),
        carried,
        token.len(),
        checked,
        checksum.len(),
    );
    store_init(
        d,
        list,
        field_size(true, list) + tail,
        sizes,
        octets,
        flagged,
        flags,
        carried,
        token,
        checked,
        checksum,
    )
}

// Whether mechanisms of these sizes, whose joined octets are n, may be written.
fn check_mechanisms(sizes: &[usize], n: usize) -> Result<(), Refusal>
    ensures { refusal_number result ≡ mechanisms_refusal sizes.now n }
{
    if !sums_to(sizes, n) {
        return Err(Refusal::Element);
    }
    if sizes.len() == 0 {
        return Err(Refusal::Element);
    }
    if 16 < sizes.len() {
        return Err(Refusal::Mechanisms);
    }
    Ok(())
}

// Writes an Init: `sizes` cuts `octets` into its mechanisms.
pub fn write_init(
    d: &mut [u8],
    sizes: &[usize],
    octets: &[u8],
    flagged: bool,
    flags: &[u8],
    carried: bool,
    token: &[u8],
    checked: bool,
    checksum: &[u8],
) -> Result<usize, Refusal>
    ensures { told result d.new ≡ storing_init d.old sizes.now octets.now flagged
        flags.now carried token.now checked checksum.now }
{
    check_mechanisms(sizes, octets.len())?;
    size_init(
        d, sizes, octets, flagged, flags, carried, token, checked, checksum,
    )
}

// Whether a state may be written.
fn fine_state(there: bool, state: u8) -> bool
    ensures { result ≡ fine_state (given there (state ∷ [])) }
{
    !there || state <= 3
}

// A Resp that has room; `inner` are the octets of its fields.
fn put_resp(
    d: &mut [u8],
    inner: usize,
    stated: bool,
    state: u8,
    named: bool,
    mechanism: &[u8],
    carried: bool,
    token: &[u8],
    checked: bool,
    checksum: &[u8],
) -> usize
    requires { RespRoom d.old inner (field_size stated 1)
        (tail_size named (length mechanism.now) carried (length token.now) checked (length checksum.now)) }
    ensures { Written d.old 0 (resp_size inner)
        (encoded (resp_given stated state named mechanism.now carried token.now checked checksum.now))
        d.new result }
{
    let octet = [state];
    let sequence = element_size(inner);
    let sequence_at = put_head(d, 0, 0xA1, sequence);
    let state_at = put_head(d, sequence_at, 0x30, inner);
    let tail_at = put_field(d, state_at, 0xA0, 0x0A, stated, &octet);
    put_tail(
        d, tail_at, 0x06, named, mechanism, carried, token, checked, checksum,
    )
}

// Writes a Resp whose state passes; `inner` as it is, or too long.
fn store_resp(
    d: &mut [u8],
    inner: usize,
    stated: bool,
    state: u8,
    named: bool,
    mechanism: &[u8],
    carried: bool,
    token: &[u8],
    checked: bool,
    checksum: &[u8],
) -> Result<usize, Refusal>
    requires { RespSized (given stated (state ∷ [])) inner (field_size stated 1)
        (tail_size named (length mechanism.now) carried (length token.now) checked (length checksum.now)) }
    ensures { told result d.new ≡ storing d.old
        (resp_given stated state named mechanism.now carried token.now checked checksum.now) }
{
    let all = element_size(element_size(inner));
    if 65535 < all {
        return Err(Refusal::TooLong);
    }
    if d.len() < all {
        return Err(Refusal::Room);
    }
    Ok(put_resp(
        d, inner, stated, state, named, mechanism, carried, token, checked, checksum,
    ))
}

// Writes a Resp.
pub fn write_resp(
    d: &mut [u8],
    stated: bool,
    state: u8,
    named: bool,
    mechanism: &[u8],
    carried: bool,
    token: &[u8],
    checked: bool,
    checksum: &[u8],
) -> Result<usize, Refusal>
    ensures { told result d.new ≡ storing d.old
        (resp_given stated state named mechanism.now carried token.now checked checksum.now) }
{
    if !fine_state(stated, state) {
        return Err(Refusal::Element);
    }
    let tail = tail_size(
        named,
        mechanism.len(),
        carried,
        token.len(),
        checked,
        checksum.len(),
    );
    store_resp(
        d,
        field_size(stated, 1) + tail,
        stated,
        state,
        named,
        mechanism,
        carried,
        token,
        checked,
        checksum,
    )
}
