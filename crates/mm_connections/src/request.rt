//! What a connection asks for.
ghost use Rattle.std.specs.Prelude.{◌≡◌};
ghost use Rattle.mm_connections.specs.Request.{client_asked};
ghost use Rattle.mm_connections.specs.private.Request.{asked_of};

use mm_manager::Key;
use mm_service::{KeyRequest, Request};

/// What a connection asks for. The name that it is about stands beside it, or the names do.
#[derive(Clone, Copy)]
pub enum ClientRequest {
    /// A transaction begins, and asks for names, one after the other, or for none.
    Begin,
    /// A transaction asks for several names, one after the other.
    LockAll(Key),
    /// What the lock service without connections answers in the same way: no begin, and nothing of `Read`.
    Plain(Request),
    /// Something is read.
    Read(ReadRequest),
}

/// What is read. Nothing changes by it.
#[derive(Clone, Copy)]
pub enum ReadRequest {
    /// The names that a transaction owns: those after the name that stands beside it, or from the first one on.
    Holds(Key),
    /// The fence of a name that a transaction owns.
    Fence(Key),
    /// What a transaction does.
    Status(Key),
    /// The protocol, the epoch, and the numbers of the opening.
    Hello,
    /// The wait-for graph.
    Graph,
    /// The live transactions.
    List,
    /// What was counted since the opening, and what is left.
    Counts,
}

/// A request of a connection, and the bytes that it is about. `R` is a `ClientRequest` or a `ReadRequest`.
#[derive(Clone, Copy)]
pub struct Heard<'a, R> {
    pub connection: u32,
    pub request: R,
    pub name: &'a [u8],
}

impl<'a> Heard<'a, ClientRequest> {
    /// Returns the same of what is read.
    pub fn reading(self, request: ReadRequest) -> Heard<'a, ReadRequest>
        ensures { result ≡ record { connection = self.entry.connection; request = request; name = self.entry.name } }
    {
        Heard {
            connection: self.connection,
            request,
            name: self.name,
        }
    }
}

/// What a connection asks for, and the bytes that it is about: one name, or the whole request if it is about several.
#[derive(Clone, Copy)]
pub struct ClientAsked<'a> {
    pub request: ClientRequest,
    pub about: &'a [u8],
}

/// Returns what a request of the lock service without connections asks for.
pub fn client_asked(request: Request, name: &[u8]) -> ClientAsked<'_>
    ensures { asked_of result ≡ client_asked request name.now }
{
    let (request, about) = match request {
        Request::Begin => (ClientRequest::Begin, [].as_slice()),
        Request::Holds(key) => (ClientRequest::Read(ReadRequest::Holds(key)), name),
        Request::OfKey(KeyRequest::Status, key) => {
            (ClientRequest::Read(ReadRequest::Status(key)), name)
        }
        Request::Graph => (ClientRequest::Read(ReadRequest::Graph), name),
        Request::OfName(_, _) | Request::OfKey(_, _) | Request::Owner | Request::Totals => {
            (ClientRequest::Plain(request), name)
        }
    };
    ClientAsked { request, about }
}
