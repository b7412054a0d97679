//! What the numbers of bindings need to know of variables and targets.
ghost use Rattle.std.specs.Prelude.{◌≡◌, ◌<◌, ◌≤◌, ◌*◌, ◌↔◌, ℕ, IsSome, IfSome};
ghost use Rattle.kept_rows.specs.declared.binding.TheConstants.{BINDING_LIMIT};

/// The most numbers of the bindings of a query.
pub const BINDING_LIMIT: u32 = 1_000_000;

/// What the number of a binding needs to know of a variable: the places of its objects, from 0, in the list of
/// its class's objects.
#[derive(Clone, Copy, Debug)]
pub struct Variable {
    /// How many objects its class has.
    pub count: u32,
    /// How many objects its class may have, at least 1.
    pub capacity: u32,
    /// The place of the object that was written. It is `count` or more where that is of another class.
    pub own: u32,
    pub ghost room: { count ≤ capacity },
    pub ghost some: { 1 ≤ capacity },
}

impl Variable {
    /// None exactly where there are more objects than there may be, or there may be none.
    #[inline]
    pub fn new(count: u32, capacity: u32, own: u32) -> Option<Variable>
        ensures valid { IsSome result ↔ ((count ≤ capacity) × (1 ≤ capacity)) }
        ensures value { IfSome result (λ v. (v.count ≡ count) × (v.capacity ≡ capacity) × (v.own ≡ own)) }
    {
        if count > capacity || capacity == 0 {
            return None;
        }
        Some(Variable {
            count,
            capacity,
            own,
        })
    }
}

/// How the numbers of bindings are shared among targets: `width` numbers, one after another, for each of `count`
/// targets. So the variables that are targets stand before the others, in the order of the targets; `count` is
/// the product of the capacities of the former and `width` of the latter.
#[derive(Clone, Copy, Debug)]
pub struct Targets {
    pub count: u32,
    pub width: u32,
    pub ghost some: { 1 ≤ width },
    pub ghost within: { count * width ≤ BINDING_LIMIT },
}

impl Targets {
    /// None exactly where a target would have no numbers, or all together more than [`BINDING_LIMIT`].
    #[inline]
    pub fn new(count: u32, width: u32) -> Option<Targets>
        ensures valid { IsSome result ↔ ((1 ≤ width) × (count * width ≤ BINDING_LIMIT)) }
        ensures value { IfSome result (λ targets. (targets.count ≡ count) × (targets.width ≡ width)) }
    {
        if width == 0 || u64::from(count) * u64::from(width) > u64::from(BINDING_LIMIT) {
            return None;
        }
        Some(Targets { count, width })
    }
}
