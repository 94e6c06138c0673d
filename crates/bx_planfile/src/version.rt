/// The versions of the plan text. The second adds to each booking whether a plan has to hold it, and the third
/// which end makes the call.
#[derive(Clone, Copy)]
pub enum Version {
    One,
    Two,
    Three,
}
