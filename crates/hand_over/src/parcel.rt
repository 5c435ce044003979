/// What is handed over, and what it has to be.
pub trait Parcel: Drop + Send {
    /// What all parcels of a desk are about.
    type About;

    /// The parcel may be sent.
    ghost fits: { Self.About → Self → Type 0 };

    /// The second parcel may be given back where the first was sent.
    ghost follows: { Self.About → Self → Self → Type 0 };
}
