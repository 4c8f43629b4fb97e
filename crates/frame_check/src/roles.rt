//! What a run needs to know of an address, found in constant time. docs/rules/acceptance.md, "What a run asks".
ghost use Rattle.std.specs.Prelude.{◌≡◌, ℕ, ◌+◌, ◌*◌, ◌/◌, ◌%◌, ◌^◌, ◌<◌, length, Some, None, IfOk, OnOk, slice_index_or, vec_len};
ghost use Rattle.frame_check.specs.Roles.{Table, IsTable, Grown, Ready, Put, table, role_place, look, no_table};

use std::alloc::{AllocError, Global};
use std::marker::Model;

/// The number of roles of a page, one for each halfword of its 4,096 bytes.
pub const PAGE_ROLES: usize = 2048;

/// What a run needs to know of an address.
#[derive(Clone, Copy)]
pub struct Role {
    /// Whether it has an instruction that some path from its function's entry reaches.
    pub is_instr: bool,
    /// Whether it is a lowering place: a MOV into sp of the result of the subtraction before it.
    pub lowers: bool,
    /// Whether a function begins there.
    pub is_function: bool,
    /// For a PUSH of a prologue, which of the words that it stores are saves: bit k means word k, counted from the lowest address.
    pub saves: u16,
}

/// The role of an address of which nothing is recorded.
pub const NO_ROLE: Role = Role {
    is_instr: false,
    lowers: false,
    is_function: false,
    saves: 0,
};

/// Roles by address. Only pages with a role are stored; a directory by page number reaches to the highest of them.
#[derive(Drop)]
pub struct Roles {
    places: Vec<Option<u32>>,
    roles: Vec<Role>,
}

impl Model for Roles {
    ghost use Rattle.frame_check.specs.Roles.{Table, IsTable, table};

    ghost Value = { Table };

    ghost view = { λ s. table s.places.items s.roles.items };

    ghost invariant = { λ s. IsTable (table s.places.items s.roles.items) };
}

/// The position of the page with number `n` among the stored pages; None if it isn't stored.
fn place(places: &[Option<u32>], n: usize) -> Option<u32>
    ensures { result ≡ slice_index_or places.now n None }
{
    if n < places.len() { places[n] } else { None }
}

/// The index of the role of halfword number `h`; None if its page isn't stored.
fn role_place(places: &[Option<u32>], h: u32) -> Option<usize>
    ensures { result ≡ role_place places.now h }
{
    let at = place(places, h as usize / PAGE_ROLES)?;
    Some(at as usize * PAGE_ROLES + h as usize % PAGE_ROLES)
}

/// Extends the directory to the page with number `n`.
fn extend_directory(places: &mut Vec<Option<u32>>, n: usize) -> Result<(), AllocError>
    requires { n < 2 ^ 32 }
    ensures same { (k : ℕ) → slice_index_or places.new.items k None ≡ slice_index_or places.old.items k None }
    ensures room { OnOk result (n < vec_len places.new) }
{
    if n < places.len() {
        return Ok(());
    }
    places.resize(n + 1, None)
}

/// Adds a page that isn't stored, with blank roles, and returns the index of its first role. If memory runs out, nothing is added.
fn add_page(
    places: &mut Vec<Option<u32>>,
    roles: &mut Vec<Role>,
    n: usize,
) -> Result<usize, AllocError>
    requires number { n < 2 ^ 32 }
    requires sound { IsTable (table places.old.items roles.old.items) }
    requires absent { slice_index_or places.old.items n None ≡ None }
    ensures sound { IsTable (table places.new.items roles.new.items) }
    ensures grown { IfOk result (λ at. Grown (table places.old.items roles.old.items) (table places.new.items roles.new.items) n at) }
{
    let Ok(page) = u32::try_from(roles.len() / PAGE_ROLES) else {
        return Err(AllocError);
    };
    extend_directory(places, n)?;
    let Some(len) = roles.len().checked_add(PAGE_ROLES) else {
        return Err(AllocError);
    };
    roles.resize(len, NO_ROLE)?;
    places[n] = Some(page);
    Ok(page as usize * PAGE_ROLES)
}

/// The index of the role of halfword number `h`; adds its page if it isn't stored.
fn place_for(
    places: &mut Vec<Option<u32>>,
    roles: &mut Vec<Role>,
    h: u32,
) -> Result<usize, AllocError>
    requires { IsTable (table places.old.items roles.old.items) }
    ensures sound { IsTable (table places.new.items roles.new.items) }
    ensures ready { IfOk result (λ at. Ready (table places.old.items roles.old.items) (table places.new.items roles.new.items) h at) }
{
    match role_place(places, h) {
        Some(at) => Ok(at),
        None => {
            let first = add_page(places, roles, h as usize / PAGE_ROLES)?;
            Ok(first + h as usize % PAGE_ROLES)
        }
    }
}

impl Roles {
    /// No roles.
    pub fn new(alloc: Global) -> Roles
        ensures { result ≡ no_table }
    {
        Roles {
            places: Vec::new(alloc),
            roles: Vec::new(alloc),
        }
    }

    /// The role of an address; `NO_ROLE` for an odd one, and if none was put there. One look-up.
    #[tactic(auto, unfolding(crate::specs::Roles::look))]
    pub fn look_up_role(&self, a: u32) -> Role
        ensures { result ≡ look self.now a }
    {
        if a % 2 == 1 {
            return NO_ROLE;
        }
        match role_place(&self.places, a / 2) {
            None => NO_ROLE,
            Some(at) => self.roles[at],
        }
    }

    /// Sets the role of an even address, and no other role.
    pub fn put(&mut self, a: u32, role: Role) -> Result<(), AllocError>
        requires { a % 2 ≡ 0 }
        ensures { OnOk result (Put self.old self.new a role) }
    {
        let at = place_for(&mut self.places, &mut self.roles, a / 2)?;
        self.roles[at] = role;
        Ok(())
    }
}
