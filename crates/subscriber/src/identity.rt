use card::FileImage;
use code_list::CodeList;
use entry_list::EntryList;
use plmn::Code;

/// What the needed files say: the IMSI code, and the forbidden list and the location as they were taken.
#[derive(Clone, Copy)]
pub struct Identity {
    pub imsi_code: Code,
    pub forbidden: FileImage,
    pub location: FileImage,
}

/// All that a run takes from the card.
#[derive(Clone, Copy)]
pub struct Subscriber {
    pub registered: Option<Code>,
    pub home: CodeList,
    pub forbidden: CodeList,
    pub user: EntryList,
    pub operator: EntryList,
}
