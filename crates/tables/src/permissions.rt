//! The permissions of an allocation (RFC 8656, section 9).

use crate::refusal::TableError;
use crate::search::{Keyed, filtered, has_room, insert, row_of};
use arrayvec::ArrayVec;
use attributes::Addr;
use basics::steps::{Count, Uncounted};
use std::cmp::Ordering;
use std::marker::Model;

/// The lifetime of a permission, in seconds (RFC 8656, section 9).
pub const PERMISSION_LIFETIME: u64 = 300;

/// The greatest number of permissions of an allocation.
pub const MAX_PERMISSIONS: usize = 64;

/// The permission of an IP address.
#[derive(Clone, Copy, Debug, PartialEq, Eq)]
pub struct Permission {
    /// The address, whose port is ignored.
    pub ip: Addr,
    /// The first moment at which it isn't live any more, in seconds.
    pub end: u64,
}

impl Default for Permission {
    fn default() -> Self {
        Self {
            ip: Addr::V4 {
                ip: [0; 4],
                port: 0,
            },
            end: 0,
        }
    }
}

impl Keyed<Addr> for Permission {
    ghost use Rattle.addresses.specs.Addresses.{ip_of};
    ghost use Rattle.addresses.specs.AddressOrder.{ip_order};

    ghost order = { λ row ip. ip_order (ip_of row.ip) (ip_of ip) };

    fn compare(&self, ip: &Addr) -> Ordering {
        self.ip.cmp_ip(ip)
    }
}

/// The permissions of an allocation: IP addresses with the ends of their permissions, in ascending order. Ended ones
/// may still be among them.
#[derive(Drop)]
pub(crate) struct Permissions {
    rows: ArrayVec<Permission, MAX_PERMISSIONS>,
}

impl Model for Permissions {
    ghost use Rattle.tables.specs.Permissions.{PermissionMap};
    ghost use Rattle.std.specs.Coded.{coded_ℕ, coded_list};
    ghost use Rattle.std.specs.FinMap.{code};
    ghost use Rattle.tables.specs.RowLists.{permissions_of};
    ghost use Rattle.tables.specs.SortedRows.{AreSortedPermissions};

    ghost Value = { PermissionMap };

    ghost coded = { code (coded_list coded_ℕ) coded_ℕ };

    ghost view = { λ p. permissions_of p.rows.items };

    ghost invariant = { λ p. AreSortedPermissions p.rows.items };
}

impl Permissions {
    ghost use Rattle.std.specs.Prelude.{◌≡◌, ℕ, ◌+◌, ◌<◌, ◌≤◌, OnOk, OnErr, IfErr, nat_le};
    ghost use Rattle.std.specs.Bool.{OnTrue};
    ghost use Rattle.std.specs.FinMap.{empty, get, insert, len};
    ghost use Rattle.addresses.specs.Addresses.{ip_of};
    ghost use Rattle.tables.specs.Permissions.{permissions_at, with_all};
    ghost use Rattle.tables.specs.RowLists.{ArePermissions, permissions_of};
    ghost use Rattle.tables.specs.declared.permissions.TheConstants.{MAX_PERMISSIONS};
    ghost use Rattle.tables.specs.declared.refusal.TableError.TheVariants.{Capacity};

    /// Makes a collection of no permissions.
    pub(crate) fn new() -> Permissions
        ensures { result ≡ empty }
    {
        Permissions {
            rows: ArrayVec::new(),
        }
    }

    /// Returns the end of the permission of an IP address, if there is one.
    pub(crate) fn end_of<C: Count>(&self, ip: &Addr, keys: &mut C) -> Option<u64>
        ensures end { result ≡ get self.now (ip_of ip.now) }
        ensures keys { C.count keys.new ≤ C.count keys.old + 7 }
    {
        row_of(&self.rows, ip, keys).map(|row| row.end)
    }

    /// Returns the permissions, in the order of their IP addresses.
    pub(crate) fn into_rows(self) -> ArrayVec<Permission, MAX_PERMISSIONS>
        ensures permissions { permissions_of result.items ≡ self }
        ensures distinct { ArePermissions result.items }
    {
        self.rows
    }

    /// Returns the permissions that are live at a moment.
    pub(crate) fn at(&self, moment: u64) -> Permissions
        ensures left { result ≡ permissions_at moment self.now }
        ensures few { len result ≤ MAX_PERMISSIONS }
    {
        let rows = filtered(&self.rows, |row| moment < row.end);
        Permissions { rows }
    }

    /// Returns whether there is room for permissions of these IP addresses beside all that there are, where each
    /// address that has none takes a row, also one that comes twice.
    pub(crate) fn have_room(&self, ips: &[Addr]) -> bool
        ensures { OnTrue result ((end : ℕ) → len (with_all self.now ips.now end) ≤ MAX_PERMISSIONS) }
    {
        let new = ips
            .iter()
            .filter(|ip| self.end_of(ip, &mut Uncounted).is_none())
            .count();
        self.rows.len() + new <= MAX_PERMISSIONS
    }

    /// Returns whether there is room for the permission of an IP address.
    pub(crate) fn has_room_for(&self, ip: &Addr) -> bool
        ensures { (end : ℕ) → result ≡ nat_le (len (insert self.now (ip_of ip.now) end)) MAX_PERMISSIONS }
    {
        has_room(&self.rows, ip)
    }

    /// Adds a permission, or gives it a new end where there is one.
    ///
    /// # Errors
    /// `Capacity` where there would be more than [`MAX_PERMISSIONS`]. Nothing is changed then.
    pub(crate) fn insert(&mut self, ip: Addr, end: u64) -> Result<(), TableError>
        ensures inserted { OnOk result (self.new ≡ insert self.old (ip_of ip) end) }
        ensures few { OnOk result (len self.new ≤ MAX_PERMISSIONS) }
        ensures why { IfErr result (λ e. e ≡ Capacity) }
        ensures full { OnErr result (MAX_PERMISSIONS < len (insert self.old (ip_of ip) end)) }
        ensures unchanged { OnErr result (self.new ≡ self.old) }
    {
        insert(&mut self.rows, &ip, Permission { ip, end })
    }

    /// Adds permissions for IP addresses, or gives them a new end.
    ///
    /// # Errors
    /// `Capacity` where there would be more than [`MAX_PERMISSIONS`].
    pub(crate) fn insert_all(&mut self, ips: &[Addr], end: u64) -> Result<(), TableError>
        requires { len self.old ≤ MAX_PERMISSIONS }
        ensures inserted { OnOk result (self.new ≡ with_all self.old ips.now end) }
        ensures few { OnOk result (len self.new ≤ MAX_PERMISSIONS) }
        ensures why { IfErr result (λ e. e ≡ Capacity) }
        ensures full { OnErr result (MAX_PERMISSIONS < len (with_all self.old ips.now end)) }
    {
        for ip in ips {
            self.insert(*ip, end)?;
        }
        Ok(())
    }

    /// As [`Permissions::insert_all`], where there is room for all of them.
    pub(crate) fn insert_each(&mut self, ips: &[Addr], end: u64)
        requires { len (with_all self.old ips.now end) ≤ MAX_PERMISSIONS }
        ensures { self.new ≡ with_all self.old ips.now end }
    {
        let _ = self.insert_all(ips, end);
    }
}
