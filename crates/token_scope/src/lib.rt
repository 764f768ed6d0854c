// Scopes: what they are, how they are written and how they are read. A reader takes a slice of any length
// and a place in it; a defect carries its kind and the place of the item at fault.
#![tactic(auto)]

ghost use Rattle.std.specs.Prelude.{◌≡◌};
ghost use Rattle.token_scope.specs.Methods.{methods_of};
ghost use Rattle.token_scope.specs.Fields.{method_at};
ghost use Rattle.token_scope.specs.Reading.{prefix_then, methods_then, limit_then, scope_of};

use basis::{Span, limits};
use cbor_heads::defect::{Defect, Kind, Reading};
use cbor_keys::{Names, index};
use cbor_strings::Class;
use cbor_values::{Item, ListAt};

// Where a scope's parts lie.
#[derive(Clone, Copy)]
pub struct ScopeAt {
    pub prefix: Option<Span>,
    pub methods: ListAt,
    pub max_bytes: Option<u64>,
}

// What method lists are made of.
struct Method;

impl Item for Method {
    ghost item = { method_at };

    fn end(s: &[u8], at: usize) -> Reading<usize> {
        Ok(cbor_strings::read_string(s, at, Class::Upper, 1, limits::METHOD_MOST)?.to)
    }
}

#[tactic(auto, unfolding(crate::specs::Methods::methods_by))]
pub fn read_methods(s: &[u8], at: usize) -> Reading<ListAt>
    ensures { result ≡ methods_of s.now at }
{
    let (count, from) = cbor_heads::array_up_to(s, at, limits::METHODS_MOST)?;
    let to = cbor_values::items_end::<Method>(s, from, count)?;
    Ok(ListAt {
        count,
        span: Span { from, to },
    })
}

// Where `left` entries are left behind the methods.
#[tactic(auto, unfolding(crate::specs::Reading::max_bytes_then, crate::specs::Reading::limit_then))]
fn limit_then(
    s: &[u8],
    prefix: Option<Span>,
    methods: ListAt,
    left: u64,
) -> Reading<(ScopeAt, usize)>
    ensures { result ≡ limit_then s.now prefix left methods }
{
    let to = methods.span.to;
    if left == 0 {
        let max_bytes = None;
        return Ok((
            ScopeAt {
                prefix,
                methods,
                max_bytes,
            },
            to,
        ));
    }
    let (n, next) = cbor_keys::number_field(
        s,
        to,
        Names::Scope,
        index::SCOPE_MAX_BYTES,
        limits::NUMBER_MOST,
    )?;
    if left == 1 {
        let max_bytes = Some(n);
        return Ok((
            ScopeAt {
                prefix,
                methods,
                max_bytes,
            },
            next,
        ));
    }
    // max_bytes is the last key, so that whatever is known is out of its place
    cbor_keys::key_at(s, next, Names::Scope)?;
    Err(Defect {
        kind: Kind::Cbor,
        at: next,
    })
}

// Where the methods' value is at `at`, and `left` entries follow it.
#[tactic(auto, unfolding(crate::specs::Reading::methods_then))]
fn methods_then(s: &[u8], at: usize, prefix: Option<Span>, left: u64) -> Reading<(ScopeAt, usize)>
    ensures { result ≡ methods_then s.now prefix left at }
{
    let methods = read_methods(s, at)?;
    limit_then(s, prefix, methods, left)
}

// Where the prefix's value is at `next`, in a map of n entries at `at`.
#[tactic(auto, unfolding(crate::specs::Reading::prefix_next, crate::specs::Reading::prefix_then))]
fn prefix_then(s: &[u8], at: usize, n: u64, next: usize) -> Reading<(ScopeAt, usize)>
    ensures { result ≡ prefix_then s.now at n next }
{
    let prefix = cbor_strings::read_string(s, next, Class::Path, 1, limits::PATH_MOST)?;
    if n < 2 {
        return Err(Defect {
            kind: Kind::Cbor,
            at,
        });
    }
    let value = cbor_keys::wanted_key(s, prefix.to, Names::Scope, index::SCOPE_METHODS)?;
    methods_then(s, value, Some(prefix), n - 2)
}

#[tactic(auto, unfolding(crate::specs::Reading::first_then, crate::specs::Reading::entries_then, crate::specs::Reading::scope_of))]
pub fn read_scope(s: &[u8], at: usize) -> Reading<(ScopeAt, usize)>
    ensures { result ≡ scope_of s.now at }
{
    let (n, first) = cbor_heads::map_with(s, at, 1, 3)?;
    let (index, next) = cbor_keys::key_at(s, first, Names::Scope)?;
    match index {
        index::SCOPE_PREFIX => prefix_then(s, at, n, next),
        index::SCOPE_METHODS => methods_then(s, next, None, n - 1),
        _ => Err(Defect {
            kind: Kind::Cbor,
            at: first,
        }),
    }
}
