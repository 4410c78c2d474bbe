//! Laws of the definitions on whole logs, each proved as the contract of a function that does
//! nothing.
ghost use Rattle.std.specs.Prelude.{◌≡◌, ℕ, Bool, true, false, take, drop, List, [], ◌∷◌, ◌++◌, Option, None, Some};
ghost use Rattle.mq_packet.specs.Stream.{frame_size};
ghost use Rattle.mq_log.specs.declared.refusal.Refusal.{Refusal};
ghost use Rattle.mq_log.specs.declared.refusal.Refusal.TheVariants.{Version, Length, Nested, NotOpen, ReleaseUnrecorded};
ghost use Rattle.mq_log.specs.declared.kind.Direction.{Direction};
ghost use Rattle.mq_log.specs.Pieces.{Pieces, AreCut};
ghost use Rattle.mq_log.specs.Framing.{record_size, records, ahead_in, stream, kind_of, opens, carried};
ghost use Rattle.mq_log.specs.Connections.{events_on_connection, is_answer, is_too_early};
ghost use Rattle.mq_log.specs.Events.{UnfinishedPackets, Event, opened, closed, released, event_at, events};
ghost use Rattle.mq_log.specs.Refusals.{refused, is_cut_short};
ghost use Rattle.mq_trace.specs.Rows.{client_header, silent_header, open_bytes, close_bytes, close_start, release_bytes, timed_header, timed_open};
ghost use Rattle.mq_log.specs.Context.{context, after, put, placed_for};

/// After its header a log is its records, each a whole one, and a rest that doesn't begin with a
/// record; there is only one such list of records.
pub fn log_is_its_records()
    ensures cut { (log : List ℕ) → AreCut (record_size (ahead_in log)) (drop 8 log) (records log) }
    ensures only { (log : List ℕ) (cut : Pieces) → AreCut (record_size (ahead_in log)) (drop 8 log) cut → cut ≡ records log }
{}

/// What a direction carried is its frames, and a rest that doesn't begin with a frame; there is
/// only one such list of frames (MQTT 5.0, section 2.1).
pub fn stream_is_its_frames()
    ensures cut { (bytes : List ℕ) → AreCut frame_size bytes (stream bytes) }
    ensures only { (bytes : List ℕ) (cut : Pieces) → AreCut frame_size bytes cut → cut ≡ stream bytes }
{}

/// What a direction carried on a connection doesn't depend on what came before its OPEN: a packet
/// that was unfinished is dropped, and a direction that was lost is read again. Records are given
/// the newest first.
pub fn connections_carry_their_own()
    ensures { (ahead : ℕ) (direction : Direction) (later before : List (List ℕ)) (first : List ℕ) → opens (kind_of first) ≡ true → carried ahead direction (later ++ first ∷ before) ≡ carried ahead direction (later ++ first ∷ []) }
{}

/// A refusal stays, whatever follows: the earliest byte decides.
pub fn refusals_stay()
    ensures { (limit : ℕ) (log more : List ℕ) (refusal : Refusal) → refused limit log ≡ Some refusal → refused limit (log ++ more) ≡ Some refusal }
{}

/// How one more byte changes what is kept of a log, and whether it adds an event, depends only on
/// what is kept.
pub fn one_byte_more()
    ensures kept { (log : List ℕ) (byte : ℕ) → context (log ++ byte ∷ []) ≡ after (context log) byte }
    ensures events { (log : List ℕ) (byte : ℕ) → events (log ++ byte ∷ []) ≡ put (placed_for (context log) byte) (events log) }
{}

/// Short logs, computed from the definitions alone.
pub fn worked_logs()
    ensures empty { (events client_header ≡ []) × (refused 16777216 client_header ≡ None) × (is_cut_short client_header ≡ false) }
    ensures cut { is_cut_short (take 7 client_header) ≡ true }
    ensures nested { refused 16777216 (client_header ++ open_bytes ++ open_bytes) ≡ Some (Nested 13) }
    ensures second { refused 16777216 (client_header ++ open_bytes ++ close_bytes ++ open_bytes) ≡ None }
    ensures between { refused 16777216 (client_header ++ release_bytes) ≡ None }
    ensures after_closed { refused 16777216 (client_header ++ open_bytes ++ close_bytes ++ release_bytes) ≡ None }
    ensures early { refused 16777216 (client_header ++ open_bytes ++ release_bytes) ≡ None }
    ensures counted { events_on_connection (events (client_header ++ open_bytes ++ release_bytes ++ close_bytes ++ open_bytes ++ release_bytes)) ≡ 2 }
    ensures unrecorded { refused 16777216 (silent_header ++ release_bytes) ≡ Some (ReleaseUnrecorded 8) }
    ensures unopened { refused 16777216 (client_header ++ close_bytes) ≡ Some (NotOpen 8) }
    ensures version { refused 16777216 (77 ∷ 81 ∷ 84 ∷ 82 ∷ 3 ∷ []) ≡ Some (Version 4) }
    ensures barred { refused 16777216 (timed_header ++ timed_open ++ 2 ∷ 1 ∷ 0 ∷ 0 ∷ 1 ∷ []) ≡ Some (Length 25) }
    ensures moments { events (timed_header ++ timed_open) ≡ record { place = record { position = 1; record_no = 1; moment = 258 }; event = opened } ∷ [] }
{}

/// A CLOSE says nothing where no packet was begun, nor of one that was begun on an earlier
/// connection: short logs, computed from the definitions alone.
pub fn worked_closes()
    ensures nothing { event_at (client_header ++ open_bytes ++ close_start) 0 ≡ Some (closed (record { sent = []; received = [] })) }
    ensures earlier { event_at (client_header ++ open_bytes ++ (2 ∷ 0 ∷ 0 ∷ 0 ∷ 1 ∷ 50 ∷ []) ++ (3 ∷ 0 ∷ 0 ∷ 0 ∷ 1 ∷ 50 ∷ []) ++ close_bytes ++ open_bytes ++ close_start) 0 ≡ Some (closed (record { sent = []; received = [] })) }
{}

/// On a connection without its CONNACK 4,096 events may come, and after them only its CLOSE and its
/// CONNACK.
pub fn early_events_are_counted()
    ensures room { (server connected : Bool) (event : Option Event) → is_too_early server connected false 4095 event ≡ false }
    ensures full { (server : Bool) (identifier : ℕ) → is_too_early server true false 4096 (Some (released identifier)) ≡ true }
    ensures closes { (server connected connack_seen : Bool) (count : ℕ) (unfinished : UnfinishedPackets) → is_too_early server connected connack_seen count (Some (closed unfinished)) ≡ false }
    ensures answered { (server connected : Bool) (count : ℕ) (event : Option Event) → is_too_early server connected true count event ≡ false }
    ensures answers { (server connected connack_seen : Bool) (count : ℕ) (event : Event) → is_answer server event ≡ true → is_too_early server connected connack_seen count (Some event) ≡ false }
    ensures between { (server connack_seen : Bool) (count : ℕ) (event : Option Event) → is_too_early server false connack_seen count event ≡ false }
{}
