// The nineteen requests, by name.
use crate::failure::Unread;
use crate::words;

// In the order in which the papers list them: a request's number is its place. The numbers are not taken from the guard's `kinds`: a
// case that asked by the guard's own would not see two of them change places.
#[derive(Clone, Copy, Debug, PartialEq, Eq)]
pub enum Call {
    Login,
    Logout,
    Take,
    Drop,
    Openr,
    Openw,
    Close,
    Create,
    Delete,
    Rename,
    Grant,
    Revoke,
    List,
    Unlist,
    Make,
    Unmake,
    Share,
    Join,
    Unjoin,
}

impl TryFrom<&[u8]> for Call {
    type Error = Unread;

    fn try_from(word: &[u8]) -> Result<Call, Unread> {
        match words::name(word) {
            b"login" => Ok(Call::Login),
            b"logout" => Ok(Call::Logout),
            b"take" => Ok(Call::Take),
            b"drop" => Ok(Call::Drop),
            b"openr" => Ok(Call::Openr),
            b"openw" => Ok(Call::Openw),
            b"close" => Ok(Call::Close),
            b"create" => Ok(Call::Create),
            b"delete" => Ok(Call::Delete),
            b"rename" => Ok(Call::Rename),
            b"grant" => Ok(Call::Grant),
            b"revoke" => Ok(Call::Revoke),
            b"list" => Ok(Call::List),
            b"unlist" => Ok(Call::Unlist),
            b"make" => Ok(Call::Make),
            b"unmake" => Ok(Call::Unmake),
            b"share" => Ok(Call::Share),
            b"join" => Ok(Call::Join),
            b"unjoin" => Ok(Call::Unjoin),
            _ => Err(Unread),
        }
    }
}

impl Call {
    pub const ALL: [Call; 19] = [
        Call::Login,
        Call::Logout,
        Call::Take,
        Call::Drop,
        Call::Openr,
        Call::Openw,
        Call::Close,
        Call::Create,
        Call::Delete,
        Call::Rename,
        Call::Grant,
        Call::Revoke,
        Call::List,
        Call::Unlist,
        Call::Make,
        Call::Unmake,
        Call::Share,
        Call::Join,
        Call::Unjoin,
    ];

    pub fn number(self) -> u32 {
        self as u32
    }

    // The request of a number, if it is one of the nineteen.
    pub fn of(number: u32) -> Option<Call> {
        Call::ALL.into_iter().find(|call| call.number() == number)
    }
}
