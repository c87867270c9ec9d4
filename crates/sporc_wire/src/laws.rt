//! Laws of streams and messages: what is written reads back, what reads is written so, and the
//! pieces of a stream don't matter.

ghost use Rattle.std.specs.Prelude.{◌≡◌, ◌≤◌, ℕ, List, [], ◌∷◌, ◌++◌, length, Option, Some, Ok};
ghost use Rattle.std.specs.Prelude.{Err};
ghost use Rattle.sporc_base.specs.Bytes.{IsBytes};
ghost use Rattle.sporc_wire.specs.declared.cutter.TheConstants.{MAX_BODY};
ghost use Rattle.sporc_wire.specs.declared.fault.FrameFault.{FrameFault};
ghost use Rattle.sporc_wire.specs.declared.limits.TheConstants.{MAX_DOCUMENTS, MAX_SESSIONS};
ghost use Rattle.sporc_wire.specs.declared.to_client.TheConstants.{EMPTY, ENTRIES, MAX_CODE};
ghost use Rattle.sporc_wire.specs.declared.to_client.TheConstants.{MAX_PULLED, ORDERED, REJECTED};
ghost use Rattle.sporc_wire.specs.declared.to_client.ToClient.{ToClient};
ghost use Rattle.sporc_wire.specs.declared.to_server.TheConstants.{HELLO, PULL, SUBMIT};
ghost use Rattle.sporc_wire.specs.declared.to_server.ToServer.{ToServer};
ghost use Rattle.sporc_wire.specs.Messages.{Unread, HandsOut, AreMessages, stream_of, fed, next};
ghost use Rattle.sporc_wire.specs.ToClient.{to_client_of, to_client_bytes, IsToClient};
ghost use Rattle.sporc_wire.specs.ToServer.{to_server_of, to_server_bytes, IsToServer};

/// The numbers of the format, which are the first byte of each body and its limits, and the limits
/// of a server.
pub fn numbers_of_the_format()
    ensures hello { HELLO ≡ 1 }
    ensures submit { SUBMIT ≡ 2 }
    ensures pull { PULL ≡ 3 }
    ensures ordered { ORDERED ≡ 1 }
    ensures rejected { REJECTED ≡ 2 }
    ensures entries { ENTRIES ≡ 3 }
    ensures empty { EMPTY ≡ 4 }
    ensures max_code { MAX_CODE ≡ 23 }
    ensures max_pulled { MAX_PULLED ≡ 16 }
    ensures max_body { MAX_BODY ≡ 4194304 }
    ensures max_sessions { MAX_SESSIONS ≡ 1024 }
    ensures max_documents { MAX_DOCUMENTS ≡ 64 }
{}

/// Each message to a server in range is read again from its body, and a body that reads is that of
/// the message read.
pub fn to_server_and_its_body()
    ensures read_again { (m : ToServer) → IsToServer m → to_server_of (to_server_bytes m) ≡ Ok m }
    ensures written_so { (body : List ℕ) (m : ToServer) → IsBytes body → to_server_of body ≡ Ok m
        → IsToServer m × (body ≡ to_server_bytes m) }
{}

/// Each message to a client in range is read again from its body, and a body that reads is that of
/// the message read.
pub fn to_client_and_its_body()
    ensures read_again { (m : ToClient) → IsToClient m → length (to_client_bytes m) ≤ MAX_BODY
        → to_client_of (to_client_bytes m) ≡ Ok m }
    ensures written_so { (body : List ℕ) (m : ToClient) → IsBytes body → to_client_of body ≡ Ok m
        → IsToClient m × (body ≡ to_client_bytes m) }
{}

/// The messages of a stream don't depend on the pieces that it is fed in: where these messages were
/// handed out of these bytes, they are handed out of more bytes too, and a message more once the
/// next call gives it. A fault stays.
pub fn any_pieces_to_a_server()
    ensures fed { (bytes more : List ℕ) (ms : List ToServer) (s : Unread)
        → HandsOut to_server_of (stream_of bytes) ms s
        → HandsOut to_server_of (stream_of (bytes ++ more)) ms (fed more s) }
    ensures next { (bytes : List ℕ) (ms : List ToServer) (s : Unread) (m : ToServer)
        → HandsOut to_server_of (stream_of bytes) ms s → (next to_server_of s).answer ≡ Ok (Some m)
        → HandsOut to_server_of (stream_of bytes) (ms ++ m ∷ []) (next to_server_of s).after }
    ensures stays { (s : Unread) (f : FrameFault) → (next to_server_of s).answer ≡ Err f
        → (next to_server_of (next to_server_of s).after).answer ≡ Err f }
{}

/// Nor do the messages of a stream to a client depend on its pieces.
pub fn any_pieces_to_a_client()
    ensures fed { (bytes more : List ℕ) (ms : List ToClient) (s : Unread)
        → HandsOut to_client_of (stream_of bytes) ms s
        → HandsOut to_client_of (stream_of (bytes ++ more)) ms (fed more s) }
    ensures next { (bytes : List ℕ) (ms : List ToClient) (s : Unread) (m : ToClient)
        → HandsOut to_client_of (stream_of bytes) ms s → (next to_client_of s).answer ≡ Ok (Some m)
        → HandsOut to_client_of (stream_of bytes) (ms ++ m ∷ []) (next to_client_of s).after }
    ensures stays { (s : Unread) (f : FrameFault) → (next to_client_of s).answer ≡ Err f
        → (next to_client_of (next to_client_of s).after).answer ≡ Err f }
{}

/// A stream has one reading.
pub fn one_reading()
    ensures to_server { (bytes : List ℕ) (ms ns : List ToServer) (f g : Option FrameFault)
        → AreMessages to_server_of bytes ms f → AreMessages to_server_of bytes ns g
        → (ms ≡ ns) × (f ≡ g) }
    ensures to_client { (bytes : List ℕ) (ms ns : List ToClient) (f g : Option FrameFault)
        → AreMessages to_client_of bytes ms f → AreMessages to_client_of bytes ns g
        → (ms ≡ ns) × (f ≡ g) }
{}
