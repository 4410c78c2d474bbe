ghost use Rattle.std.specs.Prelude.{◌≡◌};
ghost use Rattle.mq_topic.specs.Levels.{is_name};

/// Whether a text may be a Topic Name: it has no wildcard, neither `#` nor `+` (MQTT 5.0, 4.7.1).
///
/// The caller must check that the name isn't empty.
pub fn check_name(name: &str) -> bool
    ensures { result ≡ is_name name.now }
{
    name.bytes().all(|byte| byte != b'#' && byte != b'+')
}
