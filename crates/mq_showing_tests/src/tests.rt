//! What tasks that show something write to both outputs, and their status.

mod packets;
mod printing;
mod showing;
