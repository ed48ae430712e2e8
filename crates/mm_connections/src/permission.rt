//! What a connection may ask for.
ghost use Rattle.std.specs.Prelude.{◌≡◌};
ghost use Rattle.mm_connections.specs.Permission.{of_any, of_open, of_own, of_own_key, permission_of, plain_permission, read_permission};

use crate::begun::Begun;
use crate::request::{ClientRequest, ReadRequest};
use mm_manager::Key;
use mm_service::{KeyRequest, Request};

/// The number of the operator's connection.
pub const OPERATOR: u32 = 0;

/// What becomes of a request.
#[derive(Clone, Copy)]
pub enum Permission {
    /// It is made.
    Make,
    /// It is answered as one of no live transaction, since its transaction is not the connection's.
    NoTransaction,
    /// It is refused: only the operator may ask for it, or the operator may not.
    Operator,
}

/// Returns what becomes of a request of this connection. Constant time.
pub fn permission_of(begun: &Begun, connection: u32, request: ClientRequest) -> Permission
    ensures { result ≡ permission_of begun.now connection request }
{
    match request {
        ClientRequest::Begin if connection == OPERATOR => Permission::Operator,
        ClientRequest::Begin => Permission::Make,
        ClientRequest::LockAll(key) => of_open(begun, connection, key),
        ClientRequest::Plain(request) => plain_permission(begun, connection, request),
        ClientRequest::Read(request) => read_permission(begun, connection, request),
    }
}

/// Returns what becomes of a request that the lock service without connections has too.
fn plain_permission(begun: &Begun, connection: u32, request: Request) -> Permission
    ensures { result ≡ plain_permission begun.now connection request }
{
    match request {
        Request::OfName(_, key) => of_open(begun, connection, key),
        Request::OfKey(request, _) if connection == OPERATOR => of_any(request),
        Request::OfKey(request, key) => of_own_key(begun, connection, request, key),
        Request::Owner | Request::Totals => Permission::Make,
        Request::Begin | Request::Holds(_) | Request::Graph => Permission::Operator,
    }
}

/// Returns what becomes of a read.
fn read_permission(begun: &Begun, connection: u32, request: ReadRequest) -> Permission
    ensures { result ≡ read_permission begun.now connection request }
{
    let is_operator = connection == OPERATOR;
    match request {
        ReadRequest::Holds(_) | ReadRequest::Status(_) if is_operator => Permission::Make,
        ReadRequest::Holds(key) | ReadRequest::Fence(key) | ReadRequest::Status(key) => {
            of_own(begun, connection, key)
        }
        ReadRequest::Hello => Permission::Make,
        ReadRequest::Graph | ReadRequest::List | ReadRequest::Counts if is_operator => {
            Permission::Make
        }
        ReadRequest::Graph | ReadRequest::List | ReadRequest::Counts => Permission::Operator,
    }
}

/// Returns what becomes of a request of a transaction that has to be the connection's own.
fn of_own(begun: &Begun, connection: u32, key: Key) -> Permission
    ensures { result ≡ of_own begun.now connection key }
{
    match begun.connection(key) {
        Some(owner) if owner == connection => Permission::Make,
        Some(_) | None => Permission::NoTransaction,
    }
}

/// Returns what becomes of a request of a transaction that has to be the connection's own, and not be ending.
fn of_open(begun: &Begun, connection: u32, key: Key) -> Permission
    ensures { result ≡ of_open begun.now connection key }
{
    if begun.is_open(connection, key) {
        Permission::Make
    } else {
        Permission::NoTransaction
    }
}

/// Returns what becomes of a request of a key that has to be the connection's own.
fn of_own_key(begun: &Begun, connection: u32, request: KeyRequest, key: Key) -> Permission
    ensures { result ≡ of_own_key begun.now connection request key }
{
    match request {
        KeyRequest::Cancel => of_open(begun, connection, key),
        KeyRequest::Commit | KeyRequest::Abort | KeyRequest::Status => {
            of_own(begun, connection, key)
        }
    }
}

/// Returns what becomes of a request that the operator makes of any transaction.
fn of_any(request: KeyRequest) -> Permission
    ensures { result ≡ of_any request }
{
    match request {
        KeyRequest::Abort | KeyRequest::Status => Permission::Make,
        KeyRequest::Commit | KeyRequest::Cancel => Permission::NoTransaction,
    }
}
